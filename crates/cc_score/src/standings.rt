// Whether a criterion is met.
ghost use Rattle.std.specs.Prelude.{◌≡◌};
ghost use Rattle.cc_score.specs.Standings as spec;

use cc_meaning::Verdict;

/// Whether a criterion is met.
#[derive(Clone, Copy, Debug, PartialEq, Eq)]
pub enum Standing {
    /// All rows, or all groups of rows, are covered. There may be none.
    Met,
    /// All are covered or justified, and not all are covered.
    MetWithJustification,
    /// Some are neither covered nor justified.
    NotMet,
}

/// Whether the criterion with this verdict is met. Takes no memory.
pub fn standing_of(verdict: Verdict) -> Standing
    ensures { result ≡ spec.standing verdict }
{
    if verdict.covered == verdict.listed {
        Standing::Met
    } else if u64::from(verdict.covered) + u64::from(verdict.justified)
        == u64::from(verdict.listed)
    {
        Standing::MetWithJustification
    } else {
        Standing::NotMet
    }
}
