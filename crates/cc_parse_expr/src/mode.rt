// What a declarator is asked for.

/// Whether a declarator has a name.
#[derive(Clone, Copy, Debug, PartialEq, Eq)]
pub enum Mode {
    /// It has one.
    Named,
    /// It has none, as in a type name.
    Abstract,
    /// Either, as in a parameter.
    Either,
}
