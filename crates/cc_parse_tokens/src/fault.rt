// Why reading stops.
ghost use Rattle.std.specs.Prelude.{◌≡◌};
ghost use Rattle.cc_parse_tokens.specs.declared.fault.Fault.TheVariants.{Memory};

use cc_base::Memory as NoMemory;
use std::alloc::AllocError;

/// Why a reader stopped.
#[derive(Clone, Copy, Debug, PartialEq, Eq)]
pub enum Fault {
    /// The next token of the cursor is one with which there is no tree.
    Refused,
    /// Memory was wanting. No clause says when.
    Memory,
}

impl From<AllocError> for Fault {
    ghost from_gives = { λ _ e. e ≡ Memory };

    fn from(_: AllocError) -> Fault {
        Fault::Memory
    }
}

impl From<NoMemory> for Fault {
    ghost from_gives = { λ _ e. e ≡ Memory };

    fn from(_: NoMemory) -> Fault {
        Fault::Memory
    }
}
