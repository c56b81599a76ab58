// What a declaration declares.

use cc_types::TypeId;

/// How long a variable lives, and by what it is declared (C17 6.2.4).
#[derive(Clone, Copy, Debug, PartialEq, Eq)]
pub enum Life {
    /// An object of the whole run: of a file, or `static` in a block.
    Static,
    /// An object of a block.
    Local,
    /// A parameter of a function that is defined here.
    Formal,
    /// A parameter of a declarator that defines no function.
    Parameter,
}

/// What a name stands for (C17 6.2.1).
#[derive(Clone, Copy, Debug, PartialEq, Eq)]
pub enum Form {
    Object(Life),
    Function,
    Typedef,
    /// An enumeration constant, by its value.
    Constant(i32),
}

/// The linkage of a name (C17 6.2.2).
#[derive(Clone, Copy, Debug, PartialEq, Eq)]
pub enum Linkage {
    External,
    Internal,
    Without,
}

/// A declaration. All file-scope declarators of one name in one file are one declaration.
#[derive(Clone, Copy, Debug, PartialEq, Eq)]
pub struct Declared {
    pub form: Form,
    pub linkage: Linkage,
    /// Its type, composed of those of its declarators so far; none where a rule is broken.
    pub kind: Option<TypeId>,
    /// The number of the node of its name, in the first of its declarators.
    pub node: u32,
    /// The file that it stands in, by its number in the project.
    pub file: u32,
    /// Whether a declarator with a body or an initialiser was there, or this is no name with linkage.
    pub is_defined: bool,
}
