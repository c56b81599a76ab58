// Variables of a program.
use cc_base::Text;
use cc_symbols::Life;
use cc_types::TypeId;

/// A variable, by its number in the program.
#[derive(Clone, Copy, Debug, PartialEq, Eq)]
pub struct VarId(pub u32);

/// A variable of the program: a defined static object with a name, an object of a block, or a formal of a body.
#[derive(Debug, Drop)]
pub struct Variable {
    pub name: Text,
    /// The node of its name in its defining declarator.
    pub declarator: u32,
    /// Its type, composed of those of all its declarators (C17 6.2.7).
    pub ty: TypeId,
    pub life: Life,
}
