// What a part is.
use cc_tree::StructId;

/// How many types may stand in one another in an object: the rules on types allow no more (docs/rules.md).
pub const DEPTH: u32 = 64;

/// What the type of a part is.
#[derive(Clone, Copy)]
pub enum Form {
    /// An integer type.
    Number,
    /// A pointer type.
    Pointer,
    /// An array type. All elements are one part together, which comes next.
    Array,
    /// A struct type. Its members come next, in order.
    Struct(StructId),
    /// No type of an object.
    Other,
}

/// A part of an object.
#[derive(Clone, Copy)]
pub struct Part {
    /// The number of the object.
    pub object: u32,
    pub form: Form,
    /// Whether elements of an array are among the steps from the object to the part.
    pub in_array: bool,
    /// How many parts it is made of, itself included: it and those that come next.
    pub size: u32,
}
