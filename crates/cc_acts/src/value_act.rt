// What acts do with values.
use cc_arith::{IntKind, IntOp};
use cc_store::{Pointer, Value};

/// What an evaluated lvalue gives.
#[derive(Clone, Copy)]
pub enum Gives {
    /// A pointer to its object: it is the operand of `&` or `.`, or the left side of a plain assignment.
    Place,
    /// The value that is read.
    Value,
    /// Both, the value over the place: it is the left side of a compound assignment, or the operand of a step.
    Both,
    /// A pointer to the first of its elements (C17 6.3.2.1p3): it is an array of `length` elements with `cells` cells in all.
    Array { length: u32, cells: u32 },
    /// The values of its cells, the last one on top: it is the right side of a struct assignment.
    Cells { count: u32 },
}

/// Where the object of a name is.
#[derive(Clone, Copy)]
pub enum Named {
    /// It is the object of this name of the activation, by its number in the function.
    Local(u32),
    /// It is made before the first call, as string literals are.
    Static(Pointer),
}

/// How a value becomes one of another type.
#[derive(Clone, Copy)]
pub enum Conversion {
    /// An integer becomes one of this kind (C17 6.3.1.2, 6.3.1.3).
    Integer(IntKind),
    /// A null constant becomes a null pointer (C17 6.3.2.3p3); pointers stay.
    Pointer,
    /// There is no value any more.
    Void,
}

/// A binary operator, by what its operands are.
#[derive(Clone, Copy)]
pub enum Operator {
    /// Of two integers, converted to these kinds before.
    Integers {
        op: IntOp,
        left: IntKind,
        right: IntKind,
    },
    /// A pointer and an integer are added, in either order.
    Plus,
    /// An integer is taken from a pointer.
    Minus,
    /// The difference or the order of two pointers into one array: the operator, as of two `long`s, on the numbers of their
    /// elements.
    Elements {
        op: IntOp,
    },
    /// Whether two pointers are equal, or are not; each element has this many cells.
    Equality {
        is_equal: bool,
        cells: u32,
    },
}
