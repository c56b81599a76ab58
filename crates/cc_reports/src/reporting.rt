// From a program and its tests to a report.
ghost use Rattle.std.specs.Prelude.{◌≡◌, IfErr, IfOk};
ghost use Rattle.std.specs.Option.{option_copied};
ghost use Rattle.cc_reduce.specs.Ordered.{AreAscending};
ghost use Rattle.cc_score.specs.Order.{IsOrdered};
ghost use Rattle.cc_reports.specs.Reports.{IsRefused, IsReport};
ghost use Rattle.cc_reports.specs.Texts as spec;

use crate::fault::ReportFault;
use crate::found::{Found, find};
use crate::kinds::{Report, Reported};
use crate::texts::text_of;
use cc_base::Memory;
use cc_meaning::{JustifiedList, TestList};
use cc_program::Program;
use cc_score::verdicts;
use cc_verdicts::are_met;
use std::alloc::Global;

// The report of what is found.
fn reported(
    alloc: Global,
    what: Report,
    program: &Program,
    tests: &TestList,
    found: &Found,
) -> Result<Reported, Memory>
    requires ordered { IsOrdered found.now.listing }
    requires ascending { AreAscending found.now.scores.exercised }
    ensures text { IfOk result (λ made. spec.IsText what program.now tests.now
        found.now.listing found.now.reasons found.now.scores made.text.items) }
    ensures met { IfOk result (λ made. made.is_met
        ≡ spec.is_met found.now.listing found.now.reasons found.now.scores) }
{
    let verdicts = verdicts(&found.listing, &found.scores, found.reasons.as_ref());
    let text = text_of(alloc, what, program, tests, found, verdicts)?;
    Ok(Reported {
        text,
        is_met: are_met(verdicts),
    })
}

/// What a command prints of a program and its tests, and whether the criteria are met. Where justifications are given, the
/// project's format has them, and each must have a row and no test that exercises it.
///
/// # Errors
///
/// The first that comes: the program has no listing; a justification's line is no row's text, which is judged before the tests
/// are run; runs can't be watched (`Unfit`), or the machine is lost in one (`Lost`): that these can't come is not proved; a test
/// exercises a justified row.
/// `Memory` may come for any program.
pub fn report(
    alloc: Global,
    what: Report,
    program: &Program,
    tests: &TestList,
    justified: Option<&JustifiedList>,
) -> Result<Reported, ReportFault>
    ensures report { IfOk result (λ made. IsReport what program.now tests.now (option_copied justified.entry)
        made.text.items made.is_met) }
    ensures fault { IfErr result (IsRefused program.now tests.now (option_copied justified.entry)) }
{
    match find(alloc, program, tests, justified) {
        Ok(found) => Ok(reported(alloc, what, program, tests, &found)?),
        Err(fault) => Err(fault),
    }
}
