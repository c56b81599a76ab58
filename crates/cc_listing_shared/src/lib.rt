//! The shared rows: which definitions of an object reach which reads in another component.
//!
//! [`shared_rows`] takes the steps from point to point, what is known of slots and nodes, and who defines, writes and reads
//! which slot at which point. It gives the rows that are listed, ascending, each once, or says that they are too many.
#![tactic(auto)]

mod cut;
mod live;
mod shared;

pub use cut::cutting;
pub use live::{Routes, is_reached, live_among, reach_of};
pub use shared::shared_rows;
