// The lines of the three criteria.
ghost use Rattle.std.specs.Prelude.{◌≡◌, IfOk, string_bytes};
ghost use Rattle.cc_verdicts.specs.Lines as spec;

use cc_meaning::{Verdict, Verdicts};
use cc_score::{Standing, standing_of};
use std::alloc::{AllocError, Global};

/// The three criteria.
#[derive(Clone, Copy, Debug, PartialEq, Eq)]
pub enum Criterion {
    /// Each call row is covered.
    CallCoupling,
    /// Each definition of the other rows has a covered row.
    AllCouplingDefs,
    /// Each of the other rows is covered.
    AllCouplingUses,
}

impl Criterion {
    // The name that is printed.
    fn name(self) -> &'static str
        ensures { result.now ≡ spec.name_of self }
    {
        match self {
            Criterion::CallCoupling => "call-coupling",
            Criterion::AllCouplingDefs => "all-coupling-defs",
            Criterion::AllCouplingUses => "all-coupling-uses",
        }
    }
}

// Whether a criterion is met, in words.
fn standing_text(standing: Standing) -> &'static str
    ensures { result.now ≡ spec.standing_text standing }
{
    match standing {
        Standing::Met => "met",
        Standing::MetWithJustification => "met with justification",
        Standing::NotMet => "not met",
    }
}

// How many are covered of how many that are listed. How many are justified stands there only where rows can be justified.
fn counts_text(alloc: Global, verdict: Verdict, justifies: bool) -> Result<String, AllocError>
    ensures { IfOk result (λ counts. string_bytes counts ≡ spec.counts_text verdict justifies) }
{
    let covered = verdict.covered;
    let justified = verdict.justified;
    let listed = verdict.listed;
    if justifies {
        format!(in alloc; "{covered}+{justified}/{listed}")
    } else {
        format!(in alloc; "{covered}/{listed}")
    }
}

// The line of a criterion.
fn verdict_line(
    alloc: Global,
    criterion: Criterion,
    verdict: Verdict,
    justifies: bool,
) -> Result<String, AllocError>
    ensures { IfOk result (λ line. string_bytes line ≡ spec.verdict_line criterion verdict justifies) }
{
    let name = criterion.name();
    let standing = standing_text(standing_of(verdict));
    let counts = counts_text(alloc, verdict, justifies)?;
    format!(in alloc; "{name} {standing} {counts}\n")
}

/// The lines of the three criteria: whether each is met, and how many are covered of how many that are listed. Where rows can
/// be justified, how many are justified stands after a plus sign.
pub fn verdict_lines(
    alloc: Global,
    verdicts: Verdicts,
    justifies: bool,
) -> Result<String, AllocError>
    ensures { IfOk result (λ lines. string_bytes lines ≡ spec.verdict_lines verdicts justifies) }
{
    let calls = verdict_line(alloc, Criterion::CallCoupling, verdicts.calls, justifies)?;
    let defs = verdict_line(alloc, Criterion::AllCouplingDefs, verdicts.defs, justifies)?;
    let uses = verdict_line(alloc, Criterion::AllCouplingUses, verdicts.uses, justifies)?;
    format!(in alloc; "{calls}{defs}{uses}")
}

// Whether the criterion with this verdict is met, with justifications or without.
fn is_met(verdict: Verdict) -> bool
    ensures { result ≡ spec.is_met verdict }
{
    match standing_of(verdict) {
        Standing::Met | Standing::MetWithJustification => true,
        Standing::NotMet => false,
    }
}

/// Whether each of the three criteria is met, with justifications or without. Takes no memory.
pub fn are_met(verdicts: Verdicts) -> bool
    ensures { result ≡ spec.are_met verdicts }
{
    is_met(verdicts.calls) && is_met(verdicts.defs) && is_met(verdicts.uses)
}
