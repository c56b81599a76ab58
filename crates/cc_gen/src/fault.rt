// Why no project was generated.
ghost use Rattle.std.specs.Prelude.{◌≡◌};
ghost use Rattle.cc_gen.specs.declared.fault.GenFault.TheVariants.{Memory};

use cc_base::Memory as NoMemory;
use std::alloc::AllocError;

/// Why no project was generated.
#[derive(Clone, Copy, Debug, PartialEq, Eq)]
pub enum GenFault {
    /// The number is not one of 1 to 60.
    OutOfRange,
    /// Memory was wanting. No clause says when.
    Memory,
}

impl From<NoMemory> for GenFault {
    ghost from_gives = { λ _ fault. fault ≡ Memory };

    fn from(_: NoMemory) -> GenFault {
        GenFault::Memory
    }
}

impl From<AllocError> for GenFault {
    ghost from_gives = { λ _ fault. fault ≡ Memory };

    fn from(_: AllocError) -> GenFault {
        GenFault::Memory
    }
}
