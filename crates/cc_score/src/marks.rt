// Marks and reasons of rows.
ghost use Rattle.std.specs.Prelude.{◌≡◌};
ghost use Rattle.std.specs.Option.{option_copied};
ghost use Rattle.cc_score.specs.Marks as spec;

use cc_meaning::{RowReasons, Scores};

/// The number of the test that marks a row, if there is one.
pub fn mark(scores: &Scores, row: u32) -> Option<u32>
    ensures { result ≡ spec.mark scores.now.marks row }
{
    match scores.marks.as_slice().get(row as usize) {
        Some(mark) => *mark,
        None => None,
    }
}

/// The number of the justification that gives a row a reason, if there is one.
pub fn reason(reasons: &RowReasons, row: u32) -> Option<u32>
    ensures { result ≡ spec.reason reasons.now row }
{
    match reasons.as_slice().get(row as usize) {
        Some(Some(reason)) => Some(reason.index),
        _ => None,
    }
}

/// Whether a row has a reason. Where rows cannot be justified, none has.
pub fn has_reason(reasons: Option<&RowReasons>, row: u32) -> bool
    ensures { result ≡ spec.has_reason (option_copied reasons.entry) row }
{
    match reasons {
        Some(reasons) => reason(reasons, row).is_some(),
        None => false,
    }
}
