//! The machine's runs are orderly (docs/recorder.md): a law of the definitions of the machine's step and of a test's run.
//!
//! A recorder is exact along a list of events in which nothing of an activation comes after its end, no cell is read after
//! its object's end, and no activation is entered twice. Each run over acts tells such a list, where an act that enters
//! stands at each point at which a function is entered (`specs/Entered.antt`).
#![tactic(auto)]

ghost use Rattle.std.specs.Prelude.{◌≡◌, slice_get};
ghost use Rattle.cc_orderly_laws.specs.Entered as entered;
ghost use Rattle.cc_orderly_laws.specs.Laws.{RunsAreOrderly};

use cc_acts::{Act, Acts};

/// Where what stands at the entry of each function enters it, the events of each run are orderly.
pub fn runs_are_orderly()
    ensures { RunsAreOrderly }
{}

/// Whether what stands at the entry of each function enters it.
pub fn are_entered(acts: &Acts) -> bool
    ensures { result ≡ entered.all_enter acts.now.nodes acts.now.entries }
{
    for entry in acts.entries.as_slice() {
        if !enters_first(acts, *entry) {
            return false;
        }
    }
    true
}

fn enters_first(acts: &Acts, entry: Option<u32>) -> bool
    ensures { result ≡ entered.enters_first acts.now.nodes entry }
{
    match entry {
        None => true,
        Some(point) => match acts.nodes.as_slice().get(point as usize) {
            None => true,
            Some(node) => is_entry(node.act),
        },
    }
}

fn is_entry(act: Act) -> bool
    ensures { result ≡ entered.is_entry act }
{
    match act {
        Act::Enter { .. } => true,
        _ => false,
    }
}
