// Rows, and their order.

/// A coupling by its nodes. Rows are ordered by kind, and then by these numbers from left to right; an argument's number is
/// counted from 1, and a function's node is its name in its defining declarator.
#[derive(Clone, Copy, PartialEq, Eq, PartialOrd, Ord)]
pub enum Row {
    /// A site calls a function of another component.
    Call {
        site: u32,
        callee: u32,
    },
    /// A definition of an object in one component, and its use in another.
    Shared {
        definition: u32,
        reader: u32,
        object: u32,
    },
    /// A definition that a site passes as an argument to a function of another component, and its use there.
    Parameter {
        definition: u32,
        site: u32,
        argument: u32,
        callee: u32,
        reader: u32,
    },
    /// A definition that a function returns to a site of another component that uses it.
    Return {
        definition: u32,
        site: u32,
        callee: u32,
    },
}
