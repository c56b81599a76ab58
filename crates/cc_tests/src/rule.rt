//! The rules on the calls of tests, by the numbers that the program prints (docs/rules.md).

/// B1: a call names an entry of the program.
pub const ENTRY: u8 = 1;

/// B2: a call has as many arguments as its entry has formals.
pub const ARGUMENT_COUNT: u8 = 2;

/// B3: an argument is in the range of its formal's type.
pub const ARGUMENT_RANGE: u8 = 3;
