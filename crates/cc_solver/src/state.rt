// What a solver keeps.
ghost use Rattle.std.specs.Prelude.{◌≡◌};
ghost use Rattle.cc_solver.specs.declared.state.Stop.TheVariants.{Memory};

use cc_blocks::Rows;
use std::alloc::AllocError;
use std::collections::VecDeque;

/// Why there is no answer.
#[derive(Clone, Copy, Drop)]
pub enum Stop {
    Memory,
    TooMany,
}

impl From<AllocError> for Stop {
    ghost from_gives = { λ error stop. stop ≡ Memory };

    fn from(_error: AllocError) -> Stop {
        Stop::Memory
    }
}

/// Holders below the first number count: they may have so many pairs in all, and all holders together so many.
#[derive(Clone, Copy)]
pub struct Limits {
    pub counters: u32,
    pub most: u64,
    pub room: u64,
}

/// The pairs so far, those of them that have not been handled, the edges, the holders that have pairs to be handled,
/// and how many pairs there are, of the holders that count and of all.
#[derive(Drop)]
pub struct State {
    pub pairs: Rows,
    pub fresh: Rows,
    pub edges: Rows,
    pub work: VecDeque<u32>,
    pub told: u64,
    pub count: u64,
}
