//! The syntax trees of C files, as the grammar of the profile has them.
//!
//! One generic family with a note in each node: [`Expr`], [`TypeName`], [`Declarator`], [`Spec`] and what they hold,
//! [`Value`], [`Declaration`], [`Stmt`], [`Block`], [`External`], and [`FileTree`] over all. [`Unit`] is the tree as it is
//! written, where a note is the node's spot; a numbered tree has the same shape, and a number in each note too. A tree keeps
//! each specifier and each optional comma as it stands, and parentheses are nodes.
//!
//! Contracts see a tree by `view` as a plain one (`specs/Trees.antt`). `docs/grammar.md` has the chapter.
#![tactic(auto)]

mod ctype;
mod declaration;
mod expr;
mod ids;
mod note;
mod operator;
mod stmt;

pub use ctype::CType;
pub use declaration::{Declaration, Init, Value};
pub use expr::{Constant, Declarator, Expr, Member, Spec, TypeName};
pub use ids::{FuncId, Occ, StructId, VarId};
pub use note::{Referent, Unit};
pub use operator::{AssignOp, BinaryOp, Side, SpecWord, StepOp, UnaryOp};
pub use stmt::{Block, External, FileTree, ForStart, Function, Item, Stmt};
