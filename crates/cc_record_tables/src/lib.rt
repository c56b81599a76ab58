//! The tables of a recorder: what it keeps of each live cell and of each live activation, and the couplings that it saw.
//!
//! Each table answers one field of the state of `cc_record_laws`. A table that has no place for what is asked answers
//! nothing. Where memory is wanting, no answer changes.
#![tactic(auto)]

mod activations;
mod cells;
mod couplings;
mod opened;
mod slot;

pub use activations::{Activation, Activations, Read};
pub use cells::{Cells, Row};
pub use couplings::CouplingSet;
pub use opened::{begin, finish};
pub use slot::{Since, Slot};
