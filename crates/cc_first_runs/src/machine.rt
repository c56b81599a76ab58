// Small programs, and what keeps a run of one.

ghost use Rattle.std.specs.Prelude.{◌+◌, ◌<◌, ◌^◌};

use crate::event::{End, Event};

/// A function of a program: its name, the number of its file, and the names that its body calls.
#[derive(Drop)]
pub struct Function<'a> {
    pub name: &'a str,
    pub file: usize,
    pub calls: Vec<&'a str>,
}

/// What a run told.
#[derive(Debug, Drop)]
pub struct Told {
    pub events: Vec<Event>,
    pub end: End,
}

// An activation that has begun, and the number of its next call.
#[derive(Clone, Copy)]
pub struct Frame {
    pub function: usize,
    pub next: usize,
    pub act: u64,
}

// The activations that have begun, what they told, the turns that are left, and the number of the next activation.
#[derive(Drop)]
pub struct Machine {
    pub turns: u32,
    pub next_act: u64,
    pub events: Vec<Event>,
    pub frames: Vec<Frame>,
    pub ghost small: { next_act + turns < 2 ^ 64 },
}

// What an activation does next.
pub enum Next {
    Over,
    NoBody,
    Callee(usize),
}
