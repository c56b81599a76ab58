//! What is known at a place of a file, and the rules on declarations one by one.
//!
//! [`Checker`] is the state of the walk over a file: the names in scope, the tags, what is known of declarations and
//! expressions, the least offence. Each rule on specifiers, forms of declarators, members, enumeration constants, parameters
//! and objects is a method of its own; the crate `cc_declare_cycle` goes over trees and calls them. An offence is taken
//! down and the walk goes on, so an `Err` is want of memory alone. `docs/declarations.md` has the chapter.
#![tactic(auto)]

mod checker;
mod declaring;
mod enumerators;
mod forms;
mod members;
mod names;
mod objects;
mod parameters;
mod shaped;
mod shapes;
mod specifiers;
mod tags;
mod type_words;

pub use checker::Checker;
pub use enumerators::ConstantValue;
pub use members::Fields;
pub use names::{Named, formals, has_unnamed, is_lone_unnamed, is_nearest, name_of, note_of};
pub use shaped::{Formed, Shaped};
pub use specifiers::{Said, Setting, Specified, Storage};
pub use tags::{Tag, TagForm};
pub use type_words::{Core, Sign, TypeWords};
