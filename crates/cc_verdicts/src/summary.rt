// What `gen` prints above the lines of the criteria.
ghost use Rattle.std.specs.Prelude.{◌≡◌, ◌≤◌, IfOk, length, string_bytes};
ghost use Rattle.cc_verdicts.specs.Summary as spec;

use cc_meaning::{Listing, Scores};
use std::alloc::{AllocError, Global};

// Whether some test marks the row.
fn is_covered(scores: &Scores, row: u32) -> bool
    ensures { result ≡ spec.is_covered scores.now.marks row }
{
    matches!(scores.marks.as_slice().get(row as usize), Some(Some(_)))
}

/// How many rows of the listing some test marks. Takes no memory.
#[tactic(auto, using(crate::proofs::More::covered_more))]
pub fn covered_rows(listing: &Listing, scores: &Scores) -> u32
    ensures { result ≡ spec.covered_to scores.now.marks (length listing.now) }
{
    let mut covered = 0;
    for row in 0..listing.len() {
        if is_covered(scores, row) {
            covered += 1;
        }
    }
    covered
}

/// The line of a generated project of this number, which has as many components: how many rows are listed, and how many are
/// covered.
pub fn summary_line(
    alloc: Global,
    number: u32,
    rows: u32,
    covered: u32,
) -> Result<String, AllocError>
    ensures { IfOk result (λ line. string_bytes line ≡ spec.summary_line number rows covered) }
{
    format!(in alloc; "generated {number}: components {number} rows {rows} covered {covered}\n")
}
