// The reports that `score`, `tests`, `pairs` and `gen` answer with.
//
// Each step that reads the shelf says what the module `steps` says.
ghost use Rattle.std.specs.Prelude.{◌≡◌, ◌≢◌, ◌≤◌, All, IfErr, IfOk, IfSome, length, map};
ghost use Rattle.cc_tests.specs.Bound.{AreBound};
ghost use Rattle.cc_top.specs.Answer.{OfReport};
ghost use Rattle.cc_top.specs.Answer as spec;
ghost use Rattle.cc_top.specs.Counts.{Caused, NoneFalls, counts_of};
ghost use Rattle.cc_top.specs.Holds.{IsShort};
ghost use Rattle.cc_top.specs.Justified as reasons;
ghost use Rattle.cc_top.specs.Reads.{IsIncludedIn};
ghost use Rattle.cc_top.specs.Refusal.{FaultNames, IsOfInput, status_of};
ghost use Rattle.cc_top.specs.Tells.{Tells};

use crate::faults::{of_front, of_report};
use crate::output::Output;
use crate::reading::text_of;
use crate::refusal::Refusal;
use cc_base::{List, Memory};
use cc_front::{Built, front};
use cc_io::{ByteList, Shelf};
use cc_meaning::{Justified, JustifiedList};
use cc_project::{Project, RawJustified};
use cc_reports::{Report, report};
use std::alloc::Global;

fn justification(alloc: Global, raw: &RawJustified) -> Result<Justified, Memory>
    ensures { IfOk result (λ made. made ≡ reasons.justification raw.now) }
{
    let line = text_of(alloc, raw.line.as_str())?;
    let reason = text_of(alloc, raw.reason.as_str())?;
    Ok(Justified { line, reason })
}

fn justifications_in(alloc: Global, raw: &[RawJustified]) -> Result<JustifiedList, Memory>
    ensures { IfOk result (λ list. list ≡ map reasons.justification raw.now) }
{
    let mut list = List::new(alloc);
    for justified in raw {
        list.push(justification(alloc, justified)?)?;
    }
    Ok(list)
}

// The justifications of a project; in one of the first format no row can be justified.
fn justifications(alloc: Global, project: &Project) -> Result<Option<JustifiedList>, Memory>
    ensures { IfOk result (λ all. all ≡ reasons.justifications project.now) }
{
    if project.format == 2 {
        Ok(Some(justifications_in(alloc, project.justified.as_slice())?))
    } else {
        Ok(None)
    }
}

// Whether a report's criteria decide its status, and then whether they are met.
fn judged(what: Report, is_met: bool) -> bool
    ensures { result ≡ spec.judged what is_met }
{
    match what {
        Report::Score | Report::Summary(_) => is_met,
        Report::Tests | Report::Pairs | Report::Reduce | Report::Order => true,
    }
}

// The report on a program with its tests, where the project file has this name.
fn built_reported(
    alloc: Global,
    what: Report,
    name: &str,
    project: &Project,
    built: &Built,
) -> Result<Output, Refusal>
    requires bound { AreBound built.now.program project.now.tests built.now.tests }
    ensures told { Tells (OfReport what name.now project.now) result }
    ensures input { IfErr result IsOfInput }
{
    let justified = match justifications(alloc, project) {
        Ok(justified) => justified,
        Err(_) => return Err(Refusal::Memory),
    };
    match report(
        alloc,
        what,
        &built.program,
        &built.tests,
        justified.as_ref(),
    ) {
        Ok(reported) => Ok(Output {
            text: reported.text,
            is_met: judged(what, reported.is_met),
        }),
        Err(fault) => Err(of_report(alloc, name, &built.tests, fault)),
    }
}

/// The report on the program of files that are read, where the project file has this name.
pub fn files_reported<S: Shelf>(
    alloc: Global,
    shelf: &mut S,
    what: Report,
    name: &str,
    project: &Project,
    files: &List<ByteList>,
) -> Result<Output, Refusal>
    requires few { length files.now ≤ 64 }
    requires short { All IsShort files.now }
    ensures keeps { S.files shelf.new ≡ S.files shelf.old }
    ensures none_falls { NoneFalls (counts_of (S.faults shelf.old) (S.misses shelf.old) (S.longs shelf.old))
        (counts_of (S.faults shelf.new) (S.misses shelf.new) (S.longs shelf.new)) }
    ensures told { Tells (OfReport what name.now project.now) result }
    ensures caused { IfErr result (Caused (counts_of (S.faults shelf.old) (S.misses shelf.old) (S.longs shelf.old))
        (counts_of (S.faults shelf.new) (S.misses shelf.new) (S.longs shelf.new))) }
    ensures kind { IfErr result (λ refusal. status_of refusal ≢ 2) }
    ensures names { IfSome (S.files shelf.old) (λ held. IfErr result
        (FaultNames (IsIncludedIn held files.now))) }
{
    match front(alloc, shelf, project, files) {
        Ok(built) => built_reported(alloc, what, name, project, &built),
        Err(fault) => Err(of_front(alloc, project, fault)),
    }
}
