// Declarations and initialisers.

use crate::expr::{Declarator, Expr, Spec};
use sqlite_items::Items;

/// An initialiser (C17 6.7.9).
#[derive(Drop)]
pub enum Value<N> {
    Expr(Expr<N>),
    /// In braces, and whether a comma stands after the last.
    List(N, Items<Value<N>>, bool),
}

/// A declarator with its initialiser (C17 6.7).
#[derive(Drop)]
pub struct Init<N> {
    pub declarator: Declarator<N>,
    pub value: Option<Value<N>>,
}

/// A declaration (C17 6.7).
#[derive(Drop)]
pub struct Declaration<N> {
    pub note: N,
    pub specs: Items<Spec<N>>,
    pub inits: Items<Init<N>>,
}
