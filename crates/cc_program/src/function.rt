// Functions of a program.
use crate::variable::VarId;
use cc_base::{List, Text};
use cc_types::TypeId;

/// A function, by its number in the program.
#[derive(Clone, Copy, Debug, PartialEq, Eq)]
pub struct FuncId(pub u32);

/// Whether a function has a body.
#[derive(Clone, Copy, Debug, PartialEq, Eq)]
pub enum FunctionKind {
    /// It has one in some file.
    Defined,
    /// It is one of the environment's, for which a test answers.
    Environment,
}

/// A function of the program: one with a body, or one of the environment's.
#[derive(Debug, Drop)]
pub struct Function {
    pub name: Text,
    /// The node of its name: in the declarator of its body, or in the first declarator of one of the environment's.
    pub declarator: u32,
    /// The formals of its body, in order; none where it has no body.
    pub formals: List<VarId>,
    /// The node of its body's block.
    pub body: Option<u32>,
    pub kind: FunctionKind,
    /// Its type, a function type.
    pub ty: TypeId,
}
