// Expressions, type names, specifiers and declarators. They stand in one cycle: a cast holds a type name, a type name
// specifiers and a declarator, a struct specifier members, a declarator the lengths of arrays.

use crate::operator::{AssignOp, BinaryOp, Side, SpecWord, StepOp, UnaryOp};
use cc_arith::IntKind;
use cc_base::{Bytes, List, Text};
use sqlite_items::{Boxed, Items};

/// An expression (C17 6.5). The first field of each is its note.
#[cycle(expr)]
#[derive(Drop)]
pub enum Expr<N> {
    Name(N, Text),
    /// An integer constant: its value and kind.
    Int(N, i128, IntKind),
    /// A character constant: its value.
    Char(N, i128),
    /// String literals that stand side by side, as one.
    Str(N, List<Bytes>),
    Paren(N, Boxed<Expr<N>>),
    Unary(N, UnaryOp, Boxed<Expr<N>>),
    Binary(N, BinaryOp, Boxed<Expr<N>>, Boxed<Expr<N>>),
    Assign(N, AssignOp, Boxed<Expr<N>>, Boxed<Expr<N>>),
    /// `++` or `--`, before or after its operand.
    Step(N, StepOp, Side, Boxed<Expr<N>>),
    /// `c ? a : b`
    Cond(N, Boxed<Expr<N>>, Boxed<Expr<N>>, Boxed<Expr<N>>),
    Comma(N, Boxed<Expr<N>>, Boxed<Expr<N>>),
    Call(N, Boxed<Expr<N>>, Items<Expr<N>>),
    /// `e.m`
    Member(N, Boxed<Expr<N>>, Text),
    /// `e->m`
    Arrow(N, Boxed<Expr<N>>, Text),
    Index(N, Boxed<Expr<N>>, Boxed<Expr<N>>),
    Cast(N, Boxed<TypeName<N>>, Boxed<Expr<N>>),
    /// `sizeof e`
    SizeExpr(N, Boxed<Expr<N>>),
    /// `sizeof (type)`
    SizeType(N, Boxed<TypeName<N>>),
}

/// A type name (C17 6.7.7), or a parameter, which may have a name.
#[cycle(expr)]
#[derive(Drop)]
pub struct TypeName<N> {
    pub note: N,
    pub specs: Items<Spec<N>>,
    pub declarator: Declarator<N>,
}

/// A declaration specifier (C17 6.7p1).
#[cycle(expr)]
#[derive(Drop)]
pub enum Spec<N> {
    Word(N, SpecWord),
    /// A typedef name.
    Named(N, Text),
    /// `struct` with its tag and its members; where there are none, no braces.
    Struct(N, Option<Text>, Items<Member<N>>),
    /// `enum` with its tag, its constants, and whether a comma stands after the last; where there are none, no braces.
    Enum(N, Option<Text>, Items<Constant<N>>, bool),
}

/// Members that are declared together (C17 6.7.2.1).
#[cycle(expr)]
#[derive(Drop)]
pub struct Member<N> {
    pub note: N,
    pub specs: Items<Spec<N>>,
    pub declarators: Items<Declarator<N>>,
}

/// An enumeration constant (C17 6.7.2.2).
#[cycle(expr)]
#[derive(Drop)]
pub struct Constant<N> {
    pub note: N,
    pub name: Text,
    pub value: Option<Boxed<Expr<N>>>,
}

/// A declarator (C17 6.7.6), or an abstract one (C17 6.7.7). What stands nearest to the name is innermost.
#[cycle(expr)]
#[derive(Drop)]
pub enum Declarator<N> {
    Name(N, Text),
    /// Nothing in the place of the name.
    Nameless,
    /// `*`, the number of `const` behind it, and the declarator after them.
    Pointer(N, u64, Boxed<Declarator<N>>),
    Array(N, Boxed<Declarator<N>>, Option<Boxed<Expr<N>>>),
    Func(N, Boxed<Declarator<N>>, Items<TypeName<N>>),
    Paren(N, Boxed<Declarator<N>>),
}
