// What is kept of a checked file.

use crate::declared::{Form, Linkage};
use cc_base::{List, Spot};
use cc_tree::StructId;
use cc_types::{Structs, TypeId};

/// What a file-scope declarator does for its name (C17 6.9.2).
#[derive(Clone, Copy, Debug, PartialEq, Eq)]
pub enum Role {
    Declares,
    /// A tentative definition: an object without initialiser and `extern`.
    Tentative,
    /// A body, or an initialiser.
    Defines,
}

/// A file-scope declarator.
#[derive(Clone, Copy, Debug, PartialEq, Eq)]
pub struct Outer {
    /// The declaration that it declares, by number.
    pub declaration: u32,
    /// The number of the node of its name, and its place.
    pub node: u32,
    pub spot: Spot,
    pub form: Form,
    pub linkage: Linkage,
    /// The type that this declarator gives.
    pub kind: TypeId,
    pub role: Role,
}

/// A struct specifier with members.
#[derive(Clone, Copy, Debug, PartialEq, Eq)]
pub struct Completed {
    pub id: StructId,
    /// The place of its `struct` token.
    pub spot: Spot,
}

/// What is kept of a checked file.
#[derive(Drop)]
pub struct CheckedUnit {
    /// The number of its first node, and the number after its last.
    pub start: u32,
    pub end: u32,
    /// Its declarators at file scope, in order: objects, functions, typedef names.
    pub outers: List<Outer>,
    /// Its struct specifiers with members, in the order in which they are complete.
    pub completed: List<Completed>,
    /// The structs as this file has them.
    pub structs: Structs,
}
