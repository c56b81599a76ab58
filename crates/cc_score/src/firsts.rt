// The first test of each row.
ghost use Rattle.std.specs.Prelude.{◌≡◌, ◌<◌, ◌^◌, ℕ, IfOk, length, nat_eq, slice_get};
ghost use Rattle.std.specs.Option.{option_map};
ghost use Rattle.cc_score.specs.Firsts as spec;

use cc_base::{List, Memory};
use cc_meaning::{MarkList, RowSetList};
use std::alloc::Global;

/// For each of so many rows the first test whose run exercises it, if there is one. The rows that each test's run exercises
/// are given by number, from 0.
#[tactic(auto, using(crate::proofs::Mark::marks_more))]
pub fn first_tests(alloc: Global, rows: u32, exercised: &RowSetList) -> Result<MarkList, Memory>
    requires { length exercised.now < 2 ^ 32 }
    ensures { IfOk result (λ marks. marks ≡ spec.marks_to exercised.now rows) }
{
    let mut first = vec![in alloc; None; rows as usize]?;
    for test in 0..exercised.len() as u32 {
        mark_rows(&mut first, exercised.get(u64::from(test)).as_slice(), test);
    }
    let mut marks = List::new(alloc);
    for row in 0..rows as usize {
        marks.push(first[row])?;
    }
    Ok(marks)
}

// Marks those of these rows that have no mark.
fn mark_rows(first: &mut [Option<u32>], rows: &[u32], test: u32)
    ensures { (k : ℕ) → slice_get first.new k
        ≡ option_map (λ mark. spec.or_test mark (spec.has_to rows.now k (length rows.now)) test) (slice_get first.old k) }
{
    for row in rows {
        mark_row(first, *row as usize, test);
    }
}

// Marks a row, if there is one of this number and it has no mark.
fn mark_row(first: &mut [Option<u32>], row: usize, test: u32)
    ensures { (k : ℕ) → slice_get first.new k
        ≡ option_map (λ mark. spec.or_test mark (nat_eq row k) test) (slice_get first.old k) }
{
    if row < first.len() && first[row].is_none() {
        first[row] = Some(test);
    }
}
