// The numbers of the rules M1 to M7 of docs/macros.md.

/// M1: the rest of the line isn't what its word asks.
pub const WRONG_REST: u8 = 1;

/// M2: a macro with parameters.
pub const PARAMETERS: u8 = 2;

/// M3: a group isn't open, or isn't closed, or has a second `else`.
pub const UNPAIRED: u8 = 3;

/// M4: no file name after `include`.
pub const NO_FILE_NAME: u8 = 4;

/// M5: too many includes, or too deep.
pub const TOO_MANY_INCLUDES: u8 = 5;

/// M6: a macro is defined again with another list.
pub const OTHER_LIST: u8 = 6;

/// M7: too many replacements and tokens.
pub const TOO_MANY_TOKENS: u8 = 7;
