//! What the rules of expressions say of one node, where the types of its parts are known (docs/typing.md).
//!
//! Each rule is one function on the table of types, the structs and the types of the parts. It answers by a [`Judged`]: the
//! node has a type, or it breaks a rule and has none, or a part has none and nothing is said of it. A call is judged by a
//! [`Passing`], its arguments one by one. Whether a part is an lvalue or a null constant is for the caller to see.
#![tactic(auto)]

mod arithmetic;
mod assignment;
mod calls;
mod casts;
mod choices;
mod comparison;
mod judged;
mod leaves;
mod members;
mod prefix;

pub use arithmetic::binary;
pub use assignment::{assign, step};
pub use calls::{Passing, call, called, parameter, pass_one};
pub use casts::{cast, size_of};
pub use choices::{choice, comma};
pub use judged::{Judged, Part};
pub use leaves::{integer, name, paren, string};
pub use members::{Selection, arrow, index, member};
pub use prefix::unary;
