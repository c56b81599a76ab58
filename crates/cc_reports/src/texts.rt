// The texts of the commands.
ghost use Rattle.std.specs.Prelude.{◌≡◌, IfOk, string_bytes};
ghost use Rattle.cc_reduce.specs.Ordered.{AreAscending};
ghost use Rattle.cc_reports.specs.Texts as spec;

use crate::found::Found;
use crate::kinds::Report;
use cc_base::Memory;
use cc_meaning::{TestList, Verdicts};
use cc_program::Program;
use cc_reduce::{order, order_csv, reduce, reduce_csv};
use cc_tables::{pairs_csv, score_csv, tests_csv};
use cc_verdicts::{covered_rows, summary_line, verdict_lines};
use std::alloc::{AllocError, Global};

// The lines of the criteria.
fn lines_of(alloc: Global, found: &Found, verdicts: Verdicts) -> Result<String, AllocError>
    ensures { IfOk result (λ lines. string_bytes lines ≡ spec.lines_text found.now.reasons verdicts) }
{
    verdict_lines(alloc, verdicts, found.reasons.is_some())
}

// The text of `score`.
fn score_text(
    alloc: Global,
    program: &Program,
    tests: &TestList,
    found: &Found,
    verdicts: Verdicts,
) -> Result<Vec<u8>, Memory>
    ensures { IfOk result (λ text. text.items ≡ spec.score_report program.now tests.now
        found.now.listing found.now.reasons found.now.scores verdicts) }
{
    let reasons = found.reasons.as_ref();
    let mut text = score_csv(
        alloc,
        program,
        &found.listing,
        &found.scores,
        tests,
        reasons,
    )?;
    let lines = lines_of(alloc, found, verdicts)?;
    text.extend_from_slice(lines.as_bytes())?;
    Ok(text)
}

// The text of `reduce`.
fn reduce_text(alloc: Global, tests: &TestList, found: &Found) -> Result<Vec<u8>, Memory>
    ensures { IfOk result (λ text. text.items ≡ spec.reduce_report tests.now found.now.listing found.now.scores) }
{
    let marks = reduce(alloc, &found.listing, &found.scores)?;
    reduce_csv(alloc, &found.scores, &marks, tests)
}

// The text of `order`.
fn order_text(alloc: Global, tests: &TestList, found: &Found) -> Result<Vec<u8>, Memory>
    requires { AreAscending found.now.scores.exercised }
    ensures { IfOk result (λ text. spec.IsOrderText tests.now found.now.listing found.now.scores text.items) }
{
    let places = order(alloc, &found.listing, &found.scores)?;
    order_csv(alloc, &found.scores, &places, tests)
}

// The text of `gen`.
fn summary_text(
    alloc: Global,
    number: u32,
    found: &Found,
    verdicts: Verdicts,
) -> Result<Vec<u8>, Memory>
    ensures { IfOk result (λ text. text.items ≡ spec.summary_report number
        found.now.listing found.now.reasons found.now.scores verdicts) }
{
    let covered = covered_rows(&found.listing, &found.scores);
    let summary = summary_line(alloc, number, found.listing.len(), covered)?;
    let lines = lines_of(alloc, found, verdicts)?;
    let text = format!(in alloc; "{summary}{lines}")?;
    Ok(text.into_bytes())
}

/// The text of a report.
pub fn text_of(
    alloc: Global,
    what: Report,
    program: &Program,
    tests: &TestList,
    found: &Found,
    verdicts: Verdicts,
) -> Result<Vec<u8>, Memory>
    requires { AreAscending found.now.scores.exercised }
    ensures { IfOk result (λ text. spec.IsTextWith what program.now tests.now
        found.now.listing found.now.reasons found.now.scores verdicts text.items) }
{
    match what {
        Report::Score => score_text(alloc, program, tests, found, verdicts),
        Report::Tests => tests_csv(alloc, program, &found.listing, &found.scores, tests),
        Report::Pairs => pairs_csv(alloc, program, &found.listing, &found.scores, tests),
        Report::Reduce => reduce_text(alloc, tests, found),
        Report::Order => order_text(alloc, tests, found),
        Report::Summary(number) => summary_text(alloc, number, found, verdicts),
    }
}
