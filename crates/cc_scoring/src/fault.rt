// Why there are no scores.
use cc_base::Memory;

/// Why there are no scores.
#[derive(Clone, Copy, Debug, PartialEq, Eq)]
pub enum ScoreFault {
    /// The machine was lost at an act of a test's run: that this can't come is not proved.
    Lost,
    /// A file is of a component past the first 64, or no act that enters stands where a function begins, so that a recorder
    /// might be wrong: that this can't come is not proved.
    Unfit,
    /// Memory was wanting, or there are 2^32 tests or more. No clause says when.
    Memory,
}

impl From<Memory> for ScoreFault {
    ghost use Rattle.std.specs.Prelude.{◌≡◌};
    ghost use Rattle.cc_scoring.specs.declared.fault.ScoreFault.TheVariants.{Memory};

    ghost from_gives = { λ _ fault. fault ≡ Memory };

    fn from(_: Memory) -> ScoreFault {
        ScoreFault::Memory
    }
}
