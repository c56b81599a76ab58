//! The link rules, by the numbers that the program prints: what files keep to together (docs/rules.md).

/// K1: a name with external linkage has one kind and type in all files.
pub const SAME_TYPE: u8 = 1;

/// K2: a name with external linkage is defined once.
pub const ONE_DEFINITION: u8 = 2;

/// K3: what an expression names is defined.
pub const DEFINED_NAME: u8 = 3;

/// K4: a struct's tag has the same members in all files.
pub const SAME_MEMBERS: u8 = 4;

/// K5: a typedef name has the same type in all files.
pub const SAME_TYPEDEF: u8 = 5;

/// K6: an entry is a function with a body and external linkage.
pub const ENTRY: u8 = 6;

/// K7: an entry takes integers and gives an integer or nothing.
pub const ENTRY_TYPE: u8 = 7;

/// K8: a function of the environment is declared with external linkage, defined nowhere, and typed as in K7.
pub const ENVIRONMENT: u8 = 8;

/// K9: an object that a file defines has a complete type at the file's end.
pub const COMPLETE_OBJECT: u8 = 9;

/// K10: the name of a function of the environment stands where it is called.
pub const CALLED_ONLY: u8 = 10;
