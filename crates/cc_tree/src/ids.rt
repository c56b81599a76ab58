// The numbers of what a program has, each from 0.

/// An occurrence, a node of the program's trees.
#[derive(Clone, Copy, Debug, PartialEq, Eq)]
pub struct Occ(pub u32);

/// A function that is defined or an environment function.
#[derive(Clone, Copy, Debug, PartialEq, Eq)]
pub struct FuncId(pub u32);

/// A variable: a static object with a name, an automatic object or a formal.
#[derive(Clone, Copy, Debug, PartialEq, Eq)]
pub struct VarId(pub u32);

/// A struct type.
#[derive(Clone, Copy, Debug, PartialEq, Eq, Hash)]
pub struct StructId(pub u32);
