// The table that `list` answers with.
//
// Each step that reads the shelf says what the module `steps` says.
ghost use Rattle.std.specs.Prelude.{◌≡◌, ◌≢◌, ◌≤◌, All, IfErr, IfOk, IfSome, length};
ghost use Rattle.cc_front.specs.Faults.{IsCaused, IsToldIn};
ghost use Rattle.cc_top.specs.Answer.{OfListed, OfWhole};
ghost use Rattle.cc_top.specs.Counts.{Caused, NoneFalls, counts_of};
ghost use Rattle.cc_top.specs.Holds.{IsShort};
ghost use Rattle.cc_top.specs.Reads.{IsIncludedIn};
ghost use Rattle.cc_top.specs.Refusal.{FaultNames, IsOfInput, status_of};
ghost use Rattle.cc_top.specs.Tells.{Tells};
ghost use Rattle.cc_top.specs.Tells as spec;

use crate::faults::{of_front, of_listing};
use crate::output::Output;
use crate::refusal::Refusal;
use cc_base::List;
use cc_first_list::{Answer, first_answer};
use cc_front::{FrontFault, front};
use cc_io::{ByteList, Shelf};
use cc_listing::{ListFault, list_text};
use cc_project::Project;
use std::alloc::Global;

// The table of the program of files that are read, or why it has none.
fn table<S: Shelf>(
    alloc: Global,
    shelf: &mut S,
    project: &Project,
    files: &List<ByteList>,
) -> Result<Result<Vec<u8>, ListFault>, FrontFault>
    requires few { length files.now ≤ 64 }
    requires short { All IsShort files.now }
    ensures keeps { S.files shelf.new ≡ S.files shelf.old }
    ensures none_falls { NoneFalls (counts_of (S.faults shelf.old) (S.misses shelf.old) (S.longs shelf.old))
        (counts_of (S.faults shelf.new) (S.misses shelf.new) (S.longs shelf.new)) }
    ensures caused { IfErr result (IsCaused (counts_of (S.faults shelf.old) (S.misses shelf.old) (S.longs shelf.old))
        (counts_of (S.faults shelf.new) (S.misses shelf.new) (S.longs shelf.new))) }
    ensures told { IfSome (S.files shelf.old) (λ held. IfErr result (IsToldIn held files.now)) }
    ensures listed { IfOk result spec.IsListed }
{
    match front(alloc, shelf, project, files) {
        Ok(built) => Ok(list_text(alloc, &built.program)),
        Err(fault) => Err(fault),
    }
}

// The table of files that are read, by way of the whole front end.
fn whole_listed<S: Shelf>(
    alloc: Global,
    shelf: &mut S,
    project: &Project,
    files: &List<ByteList>,
) -> Result<Output, Refusal>
    requires few { length files.now ≤ 64 }
    requires short { All IsShort files.now }
    ensures keeps { S.files shelf.new ≡ S.files shelf.old }
    ensures none_falls { NoneFalls (counts_of (S.faults shelf.old) (S.misses shelf.old) (S.longs shelf.old))
        (counts_of (S.faults shelf.new) (S.misses shelf.new) (S.longs shelf.new)) }
    ensures told { Tells (OfWhole project.now) result }
    ensures caused { IfErr result (Caused (counts_of (S.faults shelf.old) (S.misses shelf.old) (S.longs shelf.old))
        (counts_of (S.faults shelf.new) (S.misses shelf.new) (S.longs shelf.new))) }
    ensures kind { IfErr result (λ refusal. status_of refusal ≢ 2) }
    ensures names { IfSome (S.files shelf.old) (λ held. IfErr result
        (FaultNames (IsIncludedIn held files.now))) }
{
    match table(alloc, shelf, project, files) {
        Ok(Ok(text)) => Ok(Output::plain(text)),
        Ok(Err(fault)) => Err(of_listing(fault)),
        Err(fault) => Err(of_front(alloc, project, fault)),
    }
}

// What is answered for a project of the first form.
fn answered(answer: Answer) -> Result<Output, Refusal>
    ensures is { result ≡ spec.answered answer }
    ensures input { IfErr result IsOfInput }
{
    match answer {
        Answer::Table(text) => Ok(Output::plain(text)),
        Answer::TooManyPoints(count) => Err(Refusal::TooManyPoints(count)),
    }
}

/// The table of files that are read, where these are the bytes of the project file.
pub fn files_listed<S: Shelf>(
    alloc: Global,
    shelf: &mut S,
    bytes: &[u8],
    project: &Project,
    files: &List<ByteList>,
) -> Result<Output, Refusal>
    requires few { length files.now ≤ 64 }
    requires short { All IsShort files.now }
    ensures keeps { S.files shelf.new ≡ S.files shelf.old }
    ensures none_falls { NoneFalls (counts_of (S.faults shelf.old) (S.misses shelf.old) (S.longs shelf.old))
        (counts_of (S.faults shelf.new) (S.misses shelf.new) (S.longs shelf.new)) }
    ensures told { Tells (OfListed bytes.now project.now files.now) result }
    ensures caused { IfErr result (Caused (counts_of (S.faults shelf.old) (S.misses shelf.old) (S.longs shelf.old))
        (counts_of (S.faults shelf.new) (S.misses shelf.new) (S.longs shelf.new))) }
    ensures kind { IfErr result (λ refusal. status_of refusal ≢ 2) }
    ensures names { IfSome (S.files shelf.old) (λ held. IfErr result
        (FaultNames (IsIncludedIn held files.now))) }
{
    match first_answer(alloc, bytes, project.files.as_slice(), files.as_slice()) {
        Ok(Some(answer)) => answered(answer),
        Ok(None) => whole_listed(alloc, shelf, project, files),
        Err(_) => Err(Refusal::Memory),
    }
}
