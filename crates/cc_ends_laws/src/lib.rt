//! The machine's runs end (docs/runs.md): a law of the definitions of the machine's step and of a test's run.
//!
//! Where the points of a program's acts have ranks that fall along every way on which no turn is taken
//! (`specs/Ranks.antt`), a run takes at most so many steps for each turn, and one more. Whether they have is found by
//! [`steps_per_turn`].
#![tactic(auto)]

mod check;
mod ranking;
mod ways;

ghost use Rattle.std.specs.Prelude.{IfOk, IfSome};
ghost use Rattle.cc_ends_laws.specs.Laws.{RunsEnd};
ghost use Rattle.cc_ends_laws.specs.Ranks.{HaveRanks};

use crate::check::are_ranked;
use crate::ranking::{ranks_of, steps_of};
use cc_acts::Acts;
use cc_base::Memory;
use std::alloc::Global;
pub use ways::{Ways, ways_of};

/// Where the points of acts have ranks, each test's run ends.
pub fn runs_end()
    ensures { RunsEnd }
{}

/// How many steps a run takes at most for each turn, where the points of the acts have ranks: it ends. Where a run could go in
/// a circle without taking a turn, they have none.
pub fn steps_per_turn(alloc: Global, acts: &Acts) -> Result<Option<u32>, Memory>
    ensures { IfOk result (λ found. IfSome found (λ steps. HaveRanks acts.now steps)) }
{
    let ranks = ranks_of(alloc, acts)?;
    let steps = steps_of(&ranks);
    if are_ranked(acts, &ranks, steps) {
        Ok(Some(steps))
    } else {
        Ok(None)
    }
}
