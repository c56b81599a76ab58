// The numbers of the rules L1 to L9 of docs/tokens.md.

/// L1: no piece begins here.
pub const NO_PIECE: u8 = 1;

/// L2: a comment has no end.
pub const OPEN_COMMENT: u8 = 2;

/// L3: a character constant or a string literal isn't closed.
pub const OPEN_QUOTE: u8 = 3;

/// L4: an escape is faulty.
pub const FAULTY_ESCAPE: u8 = 4;

/// L5: a character constant has no character, or several.
pub const NOT_ONE_CHARACTER: u8 = 5;

/// L6: a number spells no integer constant.
pub const NO_CONSTANT: u8 = 6;

/// L7: an integer constant fits no type of its list.
pub const NO_TYPE: u8 = 7;

/// L8: a backslash joins two lines.
pub const SPLICE: u8 = 8;

/// L9: a spelling that C has, and this subset does not.
pub const NOT_TAKEN: u8 = 9;
