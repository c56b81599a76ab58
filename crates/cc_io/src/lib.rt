//! Where files come from and where text goes: the traits [`Shelf`] and [`Sink`], and four kinds of them.
//!
//! A shelf gives files by name, a sink takes text. Each trait says what its calls mean by ghost members: what a shelf
//! holds and what a sink has taken, where they tell it, and counts of what went wrong, which never fall. So a caller
//! that is generic over them can say why it gave up: a fault comes only where the count of faults rose.
//! `SureShelf` and `SureSink` keep all in memory and tell it, for tests and for what is proved of whole runs.
//! `HostShelf` and `StreamSink` stand over the system: they keep the traits' clauses and tell nothing of content.
#![tactic(auto)]

mod counts;
mod host;
mod shelf;
mod sink;
mod stream;
mod sure;

pub use cc_base::{Bytes as ByteList, Memory};
pub use host::HostShelf;
pub use shelf::{Found, Shelf, ShelfFault};
pub use sink::{Sink, SinkFault};
pub use stream::StreamSink;
pub use sure::{SureShelf, SureSink};
