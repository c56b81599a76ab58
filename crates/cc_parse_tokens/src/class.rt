// What a token can begin or go on with.

use cc_tree::{AssignOp, BinaryOp, SpecWord, StepOp, UnaryOp};

/// How an expression begins.
#[derive(Clone, Copy, Debug, PartialEq, Eq)]
pub enum Start {
    Name,
    Integer,
    Character,
    Str,
    Paren,
    Unary(UnaryOp),
    Step(StepOp),
    Sizeof,
    /// No expression begins so.
    Nothing,
}

/// How an expression goes on.
#[derive(Clone, Copy, Debug, PartialEq, Eq)]
pub enum Tail {
    Binary(BinaryOp),
    Assign(AssignOp),
    /// `?`
    Question,
    Comma,
    /// `(`
    Call,
    /// `[`
    Index,
    Dot,
    Arrow,
    Step(StepOp),
    /// It doesn't.
    End,
}

/// How a specifier begins.
#[derive(Clone, Copy, Debug, PartialEq, Eq)]
pub enum SpecStart {
    Word(SpecWord),
    Struct,
    Enum,
    /// A typedef name.
    Named,
    /// No specifier begins so.
    Nothing,
}

/// How a statement or a label begins.
#[derive(Clone, Copy, Debug, PartialEq, Eq)]
pub enum StmtStart {
    Block,
    Empty,
    If,
    Switch,
    While,
    Do,
    For,
    Break,
    Continue,
    Return,
    Case,
    Default,
    /// An expression, a declaration, or nothing.
    Other,
}
