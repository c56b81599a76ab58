//! Which couplings are listed: the definitions, and the tables that they speak of.
//!
//! [`Tables`] say of each slot what object it is of and which stretches are clear for it, and of each node its component
//! and whether it is an lvalue by name. An [`Access`] is a write or a read of a slot at a point by a node. A [`Call`], an
//! [`Argument`], a [`Formal`] and a [`Returned`] say who may call whom, and what is handed over.
//! The module `Listed` of `specs` has the definitions: when a stretch is clear, and when a row of each kind is listed.
#![tactic(auto)]

mod calls;
mod table;

pub use calls::{Argument, Call, Calls, Formal, Returned};
pub use table::{
    Access, Kind, Occurrence, Slot, Tables, Uses, component_of, is_across, is_by_name, is_named,
    slot_at,
};
