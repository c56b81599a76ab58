// The order in which tests add most.
ghost use Rattle.std.specs.Prelude.{◌≡◌, ◌<◌, ◌^◌, ℕ, IfNone, IfOk, IfSome, Some, length, true};
ghost use Rattle.cc_reduce.specs.Rows.{at};
ghost use Rattle.cc_reduce.specs.Ordered as spec;
ghost use Rattle.cc_reduce.specs.Ordered.{AreAscending, IsBest, IsOrder};

use crate::covering::{cover, rows_of, uncovered};
use cc_base::{List, Memory};
use cc_meaning::{Listing, Scores};
use std::alloc::Global;

/// The numbers of tests, in some order.
pub type TestOrder = List<u32>;

/// The tests in this order: at each place the test that has most rows which no test of an earlier place has, and of those
/// that have as many the first, until none is left.
pub fn order(alloc: Global, listing: &Listing, scores: &Scores) -> Result<TestOrder, Memory>
    requires { AreAscending scores.now.exercised }
    ensures { IfOk result (λ order. IsOrder scores.now.exercised (length listing.now) order) }
{
    if scores.exercised.len() > u64::from(u32::MAX) {
        return Err(Memory);
    }
    let mut covered = vec![in alloc; false; listing.len() as usize]?;
    let mut taken = vec![in alloc; false; scores.exercised.len() as usize]?;
    let mut order = List::new(alloc);
    while let Some(test) = best(scores, &covered, &taken) {
        order.push(test as u32)?;
        taken[test] = true;
        cover(&mut covered, rows_of(scores, test));
    }
    Ok(order)
}

// A test, and how many rows it adds.
#[derive(Clone, Copy)]
struct Gain {
    test: usize,
    added: usize,
}

// Of the tests that are not taken the one that adds most rows to those that are covered, and of those that add as many the
// first.
fn best(scores: &Scores, covered: &[bool], taken: &[bool]) -> Option<usize>
    requires { AreAscending scores.now.exercised }
    ensures some { IfSome result (λ test. IsBest (spec.uncovered scores.now.exercised covered.now) (at taken.now) (length taken.now) test) }
    ensures none { IfNone result ((test : ℕ) → test < length taken.now → at taken.now test ≡ true) }
{
    let mut best: Option<Gain> = None;
    for test in 0..taken.len() {
        if !taken[test] {
            let added = uncovered(covered, rows_of(scores, test));
            best = Some(better(best, Gain { test, added }));
        }
    }
    match best {
        Some(gain) => Some(gain.test),
        None => None,
    }
}

// The greater gain, and the first where they are equal.
fn better(best: Option<Gain>, next: Gain) -> Gain
    ensures { result ≡ spec.better best next }
{
    match best {
        Some(gain) => { if gain.added < next.added { next } else { gain } }
        None => next,
    }
}
