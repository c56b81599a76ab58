// What is written with one word or sign among several of its kind.

use cc_arith::{IntOp, IntUnary};

/// A prefix operator (C17 6.5.3), other than `++`, `--` and `sizeof`.
#[derive(Clone, Copy, Debug, PartialEq, Eq)]
pub enum UnaryOp {
    /// `&`
    Address,
    /// `*`
    Deref,
    /// `+`, `-`, `~` or `!`
    Int(IntUnary),
}

/// `++` or `--`.
#[derive(Clone, Copy, Debug, PartialEq, Eq)]
pub enum StepOp {
    Increment,
    Decrement,
}

/// Where an operator stands to its operand.
#[derive(Clone, Copy, Debug, PartialEq, Eq)]
pub enum Side {
    Before,
    After,
}

/// An operator with two operands (C17 6.5.5 to 6.5.14).
#[derive(Clone, Copy, Debug, PartialEq, Eq)]
pub enum BinaryOp {
    Int(IntOp),
    /// `&&`
    AndAnd,
    /// `||`
    OrOr,
}

/// An assignment operator (C17 6.5.16).
#[derive(Clone, Copy, Debug, PartialEq, Eq)]
pub enum AssignOp {
    /// `=`
    Plain,
    /// `*=`
    Mul,
    /// `/=`
    Div,
    /// `%=`
    Rem,
    /// `+=`
    Add,
    /// `-=`
    Sub,
    /// `<<=`
    Shl,
    /// `>>=`
    Shr,
    /// `&=`
    And,
    /// `^=`
    Xor,
    /// `|=`
    Or,
}

/// A specifier of one keyword (C17 6.7.1 to 6.7.4).
#[derive(Clone, Copy, Debug, PartialEq, Eq)]
pub enum SpecWord {
    Typedef,
    Extern,
    Static,
    Inline,
    Const,
    Void,
    Char,
    Short,
    Int,
    Long,
    Signed,
    Unsigned,
    Bool,
}
