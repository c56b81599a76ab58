// The state of a run.
use cc_store::{Row, Stack, Store, Value};

/// The state of a run.
#[derive(Drop)]
pub struct State {
    /// The live objects.
    pub store: Store,
    /// For each name of each activation a pointer to its object, or `Unwritten` where it has none.
    pub names: Row<Value>,
    /// The turns that are left.
    pub turns: u32,
    /// How many cells may live.
    pub cells: u32,
    /// The answers that are left, the next one last.
    pub answers: Stack<i64>,
    /// The next activation's number.
    pub next_act: u64,
}
