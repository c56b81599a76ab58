// Statements, blocks and files.

use crate::declaration::Declaration;
use crate::expr::{Declarator, Expr, Spec};
use sqlite_items::{Boxed, Items};

/// A statement (C17 6.8).
#[cycle(stmt)]
#[derive(Drop)]
pub enum Stmt<N> {
    Block(Block<N>),
    /// `e;`
    Plain(N, Expr<N>),
    /// `;`
    Empty(N),
    /// `if` without `else`
    If(N, Expr<N>, Boxed<Stmt<N>>),
    IfElse(N, Expr<N>, Boxed<Stmt<N>>, Boxed<Stmt<N>>),
    Switch(N, Expr<N>, Block<N>),
    While(N, Expr<N>, Boxed<Stmt<N>>),
    /// `do s while (e);`
    Do(N, Boxed<Stmt<N>>, Expr<N>),
    For(N, ForStart<N>, Option<Expr<N>>, Option<Expr<N>>, Boxed<Stmt<N>>),
    Break(N),
    Continue(N),
    Return(N, Option<Expr<N>>),
}

/// `{` items `}` (C17 6.8.2).
#[cycle(stmt)]
#[derive(Drop)]
pub struct Block<N> {
    pub note: N,
    pub items: Items<Item<N>>,
}

/// What stands in a block. A label is an item of its own.
#[cycle(stmt)]
#[derive(Drop)]
pub enum Item<N> {
    Decl(Declaration<N>),
    Case(N, Expr<N>),
    Default(N),
    Stmt(Stmt<N>),
}

/// The first clause of a `for` (C17 6.8.5.3).
#[derive(Drop)]
pub enum ForStart<N> {
    Decl(Declaration<N>),
    Expr(Expr<N>),
    Empty,
}

/// A function with its body (C17 6.9.1).
#[derive(Drop)]
pub struct Function<N> {
    pub note: N,
    pub specs: Items<Spec<N>>,
    pub declarator: Declarator<N>,
    pub body: Block<N>,
}

/// What stands in a file (C17 6.9).
#[derive(Drop)]
pub enum External<N> {
    Declaration(Declaration<N>),
    Function(Function<N>),
}

/// A whole file.
#[derive(Drop)]
pub struct FileTree<N> {
    pub externals: Items<External<N>>,
}
