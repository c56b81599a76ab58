//! Slots as components read them, so that one flow over definitions serves the readers of all components.
//!
//! Which points end a stretch can depend on the component that reads at its end. So a definition is followed once for each
//! component that reads its slot: in a lane, which is a slot with a component. [`lanes_of`] numbers the lanes that are
//! read, [`spread`] puts accesses into them, [`table_of`] makes rows of pairs, and
//! [`connect`] finds which starts reach which targets of the same slot where no component matters.
#![tactic(auto)]

mod connected;
mod joined;
mod laid;
mod lane;
mod pick;
mod table;

pub use connected::{connect, point_pairs};
pub use joined::{Roads, join};
pub use laid::{Whose, spread};
pub use lane::{Lanes, lanes_of, pairs_read};
pub use pick::{crossing, staying};
pub use table::table_of;
