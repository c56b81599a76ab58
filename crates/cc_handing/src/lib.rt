//! Who may call whom, and what is handed over: tables of the calls, arguments, formals and returns of a program.
//!
//! They are made of the program, its graph, the parts of its objects, and of which sites may call which functions. All is
//! total: what has no point or no slot is left out. [`calls_of`], [`formals_of`], [`handed_of`] and [`passed_of`] each pass
//! once over what they are given.
#![tactic(auto)]

mod argument;
mod calling;
mod formal;
mod handed;
pub mod laws;
mod owning;
mod pass;
mod put;
mod read;
mod returning;
mod site;

pub use calling::calls_of;
pub use formal::formals_of;
pub use handed::{Handed, handed_of};
pub use pass::passed_of;
pub use site::Site;
