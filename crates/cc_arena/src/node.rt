// What stands at each number.

use cc_arith::IntKind;
use cc_tree::{AssignOp, BinaryOp, Side, SpecWord, StepOp, UnaryOp};

/// A stretch of the arena's lists, or of its bytes: from the item `start` up to before the item `end`.
#[derive(Clone, Copy)]
pub struct Span {
    pub start: u32,
    pub end: u32,
}

/// A node. Its parts are numbers of nodes.
#[derive(Clone, Copy)]
pub enum Node {
    /// A name as an expression (C17 6.5.1).
    Name,
    /// An integer constant: its value and kind.
    Int(i128, IntKind),
    /// A character constant: its value.
    Char(i128),
    /// String literals side by side: the bytes of all, without the zero behind them.
    Str(Span),
    Paren(u32),
    Unary(UnaryOp, u32),
    Binary(BinaryOp, u32, u32),
    Assign(AssignOp, u32, u32),
    Step(StepOp, Side, u32),
    /// `c ? a : b`
    Cond(u32, u32, u32),
    Comma(u32, u32),
    /// What is called, and the arguments.
    Call(u32, Span),
    /// `e.m`
    Member(u32),
    /// `e->m`
    Arrow(u32),
    Index(u32, u32),
    /// A type name and an expression.
    Cast(u32, u32),
    /// `sizeof e`
    SizeExpr(u32),
    /// `sizeof (type)`
    SizeType(u32),
    /// A type name or a parameter (C17 6.7.7): its declarator's outermost node.
    TypeName(Option<u32>),
    /// A specifier of one word (C17 6.7.1 to 6.7.4).
    Word(SpecWord),
    /// A typedef name as a specifier.
    Named,
    /// `struct`, with its lines of members.
    Struct(Span),
    /// `enum`, with its constants.
    Enum(Span),
    /// Members that are declared together: the outermost nodes of their declarators.
    Members(Span),
    /// An enumeration constant, with its value's expression.
    Constant(Option<u32>),
    /// The name in a declarator, with the initialiser of its declarator, whose parent it is.
    Declared(Option<u32>),
    /// `*` in a declarator. This form's and the following forms' first part is the outermost node of the declarator inside.
    Pointer(Option<u32>),
    /// `[ ]` in a declarator, with the length's expression.
    Array(Option<u32>, Option<u32>),
    /// `( )` in a declarator, with the parameters.
    Function(Option<u32>, Span),
    /// Parentheses around a declarator.
    Group(Option<u32>),
    /// An initialiser in braces.
    Braces(Span),
    /// A declaration: the outermost nodes of its declarators.
    Declaration(Span),
    /// A block, with its items.
    Block(Span),
    /// `e;`
    Plain(u32),
    /// `;`
    Empty,
    /// A condition and a statement.
    If(u32, u32),
    IfElse(u32, u32, u32),
    /// An expression and a block.
    Switch(u32, u32),
    /// A condition and a statement.
    While(u32, u32),
    /// A statement and a condition.
    Do(u32, u32),
    /// The clauses, and the statement.
    For(Option<u32>, Option<u32>, Option<u32>, u32),
    Break,
    Continue,
    Return(Option<u32>),
    /// `case e:`
    Case(u32),
    Default,
    /// A function with its body: its declarator's outermost node, and its block.
    Definition(Option<u32>, u32),
}
