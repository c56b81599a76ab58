// Values.
use cc_program::FuncId;

/// A pointer into an object: to element `index` of an array of `length` elements that begins at cell `base` of the object. A
/// single object is an array of one element. The index may be the length, one past the end.
#[derive(Clone, Copy)]
pub struct Pointer {
    /// The node of the object's declarator or string literal.
    pub object: u32,
    /// Which object of this declarator: objects are numbered from 0 as they are made.
    pub instance: u64,
    /// How many objects were live when the object was made. Nothing depends on it but the time that it takes to find the
    /// object.
    pub place: u32,
    /// The cell of the object at which the array begins.
    pub base: u32,
    /// How many elements the array has.
    pub length: u32,
    /// Which element is meant, from 0 to the length.
    pub index: u32,
}

/// What a cell holds and what an expression gives.
#[derive(Clone, Copy)]
pub enum Value {
    /// Nothing was written; also what an expression of type void or struct gives.
    Unwritten,
    /// An integer.
    Int(i128),
    /// A null pointer.
    Null,
    /// A pointer to a function.
    Function(FuncId),
    /// A pointer into an object.
    Points(Pointer),
}
