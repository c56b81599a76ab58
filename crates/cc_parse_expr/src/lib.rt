//! Expressions, type names, specifiers and declarators, as they are read from tokens.
//!
//! Each rule of the grammar is a method of [`grammar::Grammar`], which has the readers of what stands inside as values, so
//! that each is proved by itself. [`expr`], [`specs`] and [`declarator`] tie them together. Each gives exactly what the
//! reader of the same name in `cc_grammar`'s definitions of reading gives.
#![tactic(auto)]

mod declarators;
mod expression;
mod grammar;
mod identifier;
mod mode;
mod prefix;
mod readers;
mod shape;
mod specifier;
mod tails;
mod type_name;

pub use declarators::spot_or;
pub use mode::Mode;
pub use readers::{declarator, expr, specs};
