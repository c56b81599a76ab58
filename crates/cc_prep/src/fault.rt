// Why a file has no tokens.
ghost use Rattle.std.specs.Prelude.{◌≡◌};

use cc_base::{Memory, Spot, Text};
use std::alloc::{AllocError, AllocFailed};

/// Why a file of the project has no tokens.
#[derive(Debug, Drop)]
pub enum PrepFault {
    /// Rule L`rule`, from L1 to L9, fails in this file, which is the project's or an included one.
    Lexical { file: Text, spot: Spot, rule: u8 },
    /// Rule M`rule`, from M1 to M7, fails in this file. For M7 it is the project's.
    Directive { file: Text, spot: Spot, rule: u8 },
    /// The read of this included file failed.
    ReadFault { file: Text },
    /// There is no included file of this name.
    Missing { file: Text },
    /// This included file has more than 1,048,576 bytes.
    TooLong { file: Text },
    /// Memory was wanting. No clause says when.
    Memory,
}

/// Why the reading of one file stops.
#[derive(Clone, Copy)]
pub(crate) enum Stop {
    /// Rule L`rule` fails at this spot of the file.
    Lexical { spot: Spot, rule: u8 },
    /// Rule M`rule` fails at this spot of the file.
    Directive { spot: Spot, rule: u8 },
    /// Rule M7 fails at this spot of the project's file.
    TooManyTokens(Spot),
    /// Memory was wanting.
    Memory,
}

impl From<Memory> for Stop {
    ghost use Rattle.cc_prep.specs.declared.fault.Stop.TheVariants.{Memory};

    ghost from_gives = { λ _ stop. stop ≡ Memory };

    fn from(_: Memory) -> Stop {
        Stop::Memory
    }
}

impl From<AllocError> for Stop {
    ghost use Rattle.cc_prep.specs.declared.fault.Stop.TheVariants.{Memory};

    ghost from_gives = { λ _ stop. stop ≡ Memory };

    fn from(_: AllocError) -> Stop {
        Stop::Memory
    }
}

impl<T: Drop> From<AllocFailed<T>> for Stop {
    ghost use Rattle.cc_prep.specs.declared.fault.Stop.TheVariants.{Memory};

    ghost from_gives = { λ _ stop. stop ≡ Memory };

    fn from(_: AllocFailed<T>) -> Stop {
        Stop::Memory
    }
}
