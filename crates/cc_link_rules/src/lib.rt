//! The link rules: what checked files keep to together, K1 to K10 (docs/linking.md, docs/rules.md).
//!
//! Each rule has a module: what it asks of one declarator, struct or name, and a loop over all files, in the order of the
//! project, that hands on the least fault. [`Links`] has what is known of each name with external linkage, in the order of
//! first declarators; [`standings`] then tells what each declaration is in the whole program. [`rule`] has the rules by their
//! numbers. [`whole_structs`] makes one table of the structs of all files.
#![tactic(auto)]

mod callable;
mod defining;
mod ends;
mod external;
mod fault;
mod linked;
pub mod rule;
mod standing;
mod structs;
mod tags;
mod typedefs;
mod uses;

pub use callable::{NameFault, check_all_names};
pub use defining::{Definitions, definitions};
pub use ends::end_files;
pub use external::{link_files, mark_all};
pub use fault::{Fault, Names, lesser, next};
pub use linked::{Linked, Links, text_at};
pub use standing::{Standing, Standings, standing_at, standings};
pub use structs::whole_structs;
pub use tags::{Tags, link_tags};
pub use typedefs::link_typedefs;
pub use uses::{all_called, named_at, use_all};
