// Which tests can be left out.
ghost use Rattle.std.specs.Prelude.{◌≡◌, IfOk, Some, length, slice_get};
ghost use Rattle.cc_score.specs.Any.{any_to};
ghost use Rattle.cc_reduce.specs.Reduced as spec;

use crate::covering::{cover, rows_of};
use cc_base::{List, Memory};
use cc_meaning::{Listing, MarkList, Scores};
use cc_score::first_tests;
use std::alloc::Global;

/// For each test whether it is kept.
pub type TestMarks = List<bool>;

/// Which tests are kept: from the last to the first, a test is left out where each of its rows is exercised by another test
/// that is not left out so far.
pub fn reduce(alloc: Global, listing: &Listing, scores: &Scores) -> Result<TestMarks, Memory>
    ensures { IfOk result (λ kept. kept ≡ spec.reduced scores.now.exercised (length listing.now)) }
{
    if scores.exercised.len() > u64::from(u32::MAX) {
        return Err(Memory);
    }
    let first = first_tests(alloc, listing.len(), &scores.exercised)?;
    // The rows of the kept tests after the one that is looked at. Those before it are all kept yet, so of their rows the
    // first test of each row tells.
    let mut later = vec![in alloc; false; listing.len() as usize]?;
    let mut kept = vec![in alloc; true; scores.exercised.len() as usize]?;
    for test in (0..scores.exercised.len() as usize).rev() {
        let rows = rows_of(scores, test);
        let is_needed = has_new(&first, &later, test, rows);
        kept[test] = is_needed;
        if is_needed {
            cover(&mut later, rows);
        }
    }
    marks_of(alloc, &kept)
}

// Whether one of the rows of a test is no row of an earlier test, nor of those that are kept after it.
fn has_new(first: &MarkList, later: &[bool], test: usize, rows: &[u32]) -> bool
    ensures { result ≡ any_to (λ i. spec.is_new_at first.now later.now test (slice_get rows.now i)) (length rows.now) }
{
    let mut found = false;
    for row in rows {
        found = is_new(first, later, test, *row) || found;
    }
    found
}

// Whether a row is no row of an earlier test, nor of those that are kept after it.
fn is_new(first: &MarkList, later: &[bool], test: usize, row: u32) -> bool
    ensures { result ≡ spec.is_new_at first.now later.now test (Some row) }
{
    match (first.as_slice().get(row as usize), later.get(row as usize)) {
        (Some(Some(first)), Some(later)) => *first as usize >= test && !*later,
        _ => false,
    }
}

fn marks_of(alloc: Global, kept: &[bool]) -> Result<TestMarks, Memory>
    ensures { IfOk result (λ marks. marks ≡ kept.now) }
{
    let mut marks = List::new(alloc);
    for is_kept in kept {
        marks.push(*is_kept)?;
    }
    Ok(marks)
}
