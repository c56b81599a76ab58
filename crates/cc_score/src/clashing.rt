// Rows that are both justified and exercised.
ghost use Rattle.std.specs.Prelude.{◌≡◌, ◌<◌, ◌^◌, ℕ, IfNone, IfSome, length};
ghost use Rattle.cc_score.specs.Conflicts as spec;
ghost use Rattle.cc_score.specs.Conflicts.{Clashes, IsLeast};

use crate::clash::Conflict;
use crate::marks::{mark, reason};
use cc_meaning::{RowReasons, Scores};

/// The row with a reason and a mark whose justification is the least, and of such rows the least. Takes no memory.
#[tactic(auto, using(crate::proofs::More::least_more, crate::proofs::Least::found, crate::proofs::Least::missing))]
pub fn conflict(scores: &Scores, reasons: &RowReasons) -> Option<Conflict>
    requires { length reasons.now < 2 ^ 32 }
    ensures some { IfSome result (λ c. IsLeast scores.now.marks reasons.now (length reasons.now) c) }
    ensures none { IfNone result ((row index test : ℕ) → Clashes scores.now.marks reasons.now row index test → ⊥) }
{
    let mut least = None;
    for row in 0..reasons.len() as u32 {
        least = less(least, at(scores, reasons, row));
    }
    least
}

// The conflict at a row, if there is one.
fn at(scores: &Scores, reasons: &RowReasons, row: u32) -> Option<Conflict>
    ensures { result ≡ spec.at scores.now.marks reasons.now row }
{
    match (reason(reasons, row), mark(scores, row)) {
        (Some(index), Some(test)) => Some(Conflict { index, row, test }),
        _ => None,
    }
}

// Of two conflicts the one whose justification is less, and else the first.
fn less(a: Option<Conflict>, b: Option<Conflict>) -> Option<Conflict>
    ensures { result ≡ spec.less a b }
{
    match (a, b) {
        (Some(first), Some(second)) if second.index < first.index => b,
        (Some(_), _) => a,
        (None, _) => b,
    }
}
