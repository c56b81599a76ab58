// The levels of expressions (C17 6.5).

/// An expression with a comma (C17 6.5.17), the loosest.
pub const COMMA: u8 = 1;

/// An assignment (C17 6.5.16).
pub const ASSIGNMENT: u8 = 2;

/// A conditional expression (C17 6.5.15), which a constant expression is too (C17 6.6).
pub const CONDITIONAL: u8 = 3;

/// `a || b` (C17 6.5.14), the loosest of the binary operators.
pub const LOGICAL_OR: u8 = 4;

/// `a && b` (C17 6.5.13).
pub const LOGICAL_AND: u8 = 5;

/// `a | b` (C17 6.5.12).
pub const OR: u8 = 6;

/// `a ^ b` (C17 6.5.11).
pub const XOR: u8 = 7;

/// `a & b` (C17 6.5.10).
pub const AND: u8 = 8;

/// `a == b` and `a != b` (C17 6.5.9).
pub const EQUALITY: u8 = 9;

/// `a < b` and its like (C17 6.5.8).
pub const RELATION: u8 = 10;

/// `a << b` and `a >> b` (C17 6.5.7).
pub const SHIFT: u8 = 11;

/// `a + b` and `a - b` (C17 6.5.6).
pub const SUM: u8 = 12;

/// `a * b`, `a / b` and `a % b` (C17 6.5.5), the tightest of the binary operators.
pub const PRODUCT: u8 = 13;

/// A cast (C17 6.5.4).
pub const CAST: u8 = 14;

/// A form with a prefix operator or `sizeof` (C17 6.5.3).
pub const UNARY: u8 = 15;

/// A primary expression, or one with a postfix operator (C17 6.5.1, 6.5.2), the tightest.
pub const POSTFIX: u8 = 16;
