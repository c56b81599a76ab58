// Values that are still to be used, and activations.
use cc_store::Value;

/// The value of a node that is still to be used.
#[derive(Clone, Copy)]
pub struct Entry {
    pub occ: u32,
    pub value: Value,
}

/// An activation: its number, where its names begin among the names of all activations, and by which `return` with which
/// value it is ending, if it is.
#[derive(Clone, Copy)]
pub struct Frame {
    pub act: u64,
    pub base: u32,
    pub returned: Option<Entry>,
}

/// An activation that waits for a call: the call, whether its value is used, the point at which it goes on.
#[derive(Clone, Copy)]
pub struct Caller {
    pub site: u32,
    pub is_used: bool,
    pub point: u32,
    pub frame: Frame,
}
