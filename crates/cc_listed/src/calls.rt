// Who may call whom, and what is handed over.
use crate::table::Access;

/// A site may call a function. A function's node is its name in its defining declarator.
#[derive(Clone, Copy)]
pub struct Call {
    /// The node of the call.
    pub site: u32,
    /// The function's node.
    pub callee: u32,
    /// The point at which the call is made, after its arguments.
    pub at: u32,
    /// Whether the site uses its value.
    pub used: bool,
}

/// An argument of a site.
#[derive(Clone, Copy)]
pub struct Argument {
    /// The node of the call.
    pub site: u32,
    /// Its number, from 1.
    pub number: u32,
    /// The point at which the call is made.
    pub at: u32,
    /// Its own node.
    pub occurrence: u32,
    /// If it is a variable's name, parentheses aside, of scalar type: the number of its read among the named ones.
    pub named: Option<u32>,
}

/// A formal of a function.
#[derive(Clone, Copy)]
pub struct Formal {
    /// The function's node.
    pub callee: u32,
    /// Its number, from 1.
    pub number: u32,
    /// Its slot.
    pub slot: u32,
    /// The function's entry.
    pub entry: u32,
}

/// A return with an expression.
#[derive(Clone, Copy)]
pub struct Returned {
    /// The function's node.
    pub callee: u32,
    /// The statement's node.
    pub statement: u32,
    /// The point after the statement.
    pub after: u32,
    /// If the expression is a variable's name, parentheses aside, of scalar type: the number of its read among the named ones.
    pub named: Option<u32>,
}

/// Who may call whom, and what is handed over.
#[derive(Clone, Copy)]
pub struct Calls<'a> {
    /// Which sites may call which functions.
    pub calls: &'a [Call],
    /// The arguments of sites.
    pub arguments: &'a [Argument],
    /// The formals of functions.
    pub formals: &'a [Formal],
    /// The returns with an expression.
    pub returns: &'a [Returned],
    /// The reads of variables that arguments and returns name.
    pub named: &'a [Access],
}
