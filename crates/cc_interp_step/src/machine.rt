// What the machine keeps.
use cc_acts::{Caller, Entry, Frame, State, Stop};
use cc_meaning::Event;
use cc_store::Stack;

/// Where the machine is, the values that are still to be used, its callers, its state, and what is to be told.
#[derive(Drop)]
pub struct Machine {
    /// The point at which it is.
    pub point: u32,
    /// Its activation.
    pub frame: Frame,
    /// The values that are still to be used, of all activations.
    pub operands: Stack<Entry>,
    /// The activations that wait for a call.
    pub callers: Stack<Caller>,
    /// The state of the run.
    pub state: State,
    /// The events that are to be told, the last one on top.
    pub outbox: Stack<Event>,
}

/// What a step came to.
#[derive(Clone, Copy)]
pub enum Outcome {
    /// The run goes on.
    Next,
    /// The test's call has returned.
    Back,
    /// The run stops.
    Stopped(Stop),
}
