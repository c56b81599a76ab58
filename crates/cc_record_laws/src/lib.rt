//! What a list of events exercises, and laws by which a recorder can keep that without keeping the list.
//!
//! A coupling is exercised where certain events stand at certain places of the list: `specs/Exercised.antt` says where.
//! Each of these conditions asks for the last event before a place that fits. So a state that keeps what the last fitting
//! events say is enough (`specs/Kept.antt`), also one that forgets cells and activations when they end
//! (`specs/Dropping.antt`). This crate has no code but two types: its functions
//! carry these laws.
#![tactic(auto)]

ghost use Rattle.cc_record_laws.specs.Dropping.{LiveRecordsExactly};
ghost use Rattle.cc_record_laws.specs.Kept.{RecordsExactly};
ghost use Rattle.cc_record_laws.specs.Laws.{GivesExactly};
ghost use Rattle.cc_record_laws.specs.Watching.{Watching};

mod kept;

pub use kept::{Entry, Passed};

/// What each event gives, by the last events before it, is exactly what the list exercises.
pub fn law()
    ensures { GivesExactly }
{}

/// What states give along a list is exactly what the list exercises.
pub fn records()
    ensures { RecordsExactly }
{}

/// The same of states that forget what has ended, along a list that reads nothing that has ended.
pub fn live()
    ensures { LiveRecordsExactly }
{}

/// A recorder whose events take such steps stands for the list of them, and its set is exactly what that list exercises.
pub fn watching()
    ensures { Watching }
{}
