//! What a program's points do: acts, and the machine's step over them (docs/runs.md).
//!
//! [`Acts`] has what stands at each point of a program: an [`Act`], and whether the point takes a turn. A run is in a
//! [`State`]; it goes on by one act after another, or stops ([`Stop`]). `specs/Steps.antt` says what an act does to the state
//! and to the values that are still to be used, out of the parts of `specs/Parts.antt`, of which the meaning of a program is
//! made too; `specs/Values.antt` what operators and conversions make of values; `specs/Runs.antt` what a run is.
#![tactic(auto)]

mod act;
mod acts;
mod frame;
mod state;
mod stop;
mod value_act;

pub use act::Act;
pub use acts::{Acts, Case, Filler, Lasting, Node};
pub use frame::{Caller, Entry, Frame};
pub use state::State;
pub use stop::Stop;
pub use value_act::{Conversion, Gives, Named, Operator};
