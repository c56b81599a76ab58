// The counts that `check` answers with.
//
// Each step that reads the shelf says what the module `steps` says.
ghost use Rattle.std.specs.Prelude.{◌≡◌, ◌≢◌, ◌≤◌, All, IfErr, IfOk, IfSome, length, string_bytes};
ghost use Rattle.cc_front.specs.Faults.{IsCaused, IsToldIn};
ghost use Rattle.cc_top.specs.Answer.{OfChecked, counts_line};
ghost use Rattle.cc_top.specs.Counts.{Caused, NoneFalls, counts_of};
ghost use Rattle.cc_top.specs.Holds.{IsShort};
ghost use Rattle.cc_top.specs.Reads.{IsIncludedIn};
ghost use Rattle.cc_top.specs.Refusal.{FaultNames, status_of};
ghost use Rattle.cc_top.specs.Tells.{Tells};

use crate::faults::of_front;
use crate::output::Output;
use crate::refusal::Refusal;
use cc_base::List;
use cc_front::{FrontFault, front};
use cc_io::{ByteList, Shelf};
use cc_project::Project;
use std::alloc::{AllocError, Global};

// The line of `check`.
fn counts(
    alloc: Global,
    project: &Project,
    functions: u32,
    objects: u32,
) -> Result<String, AllocError>
    ensures { IfOk result (λ text. string_bytes text ≡ counts_line project.now functions objects) }
{
    let components = project.components.len();
    let files = project.files.len();
    let tests = project.tests.len();
    format!(in alloc;
        "ok components {components} files {files} functions {functions} objects {objects} tests {tests}\n"
    )
}

// How many functions and static objects the program of files that are read defines.
fn numbers<S: Shelf>(
    alloc: Global,
    shelf: &mut S,
    project: &Project,
    files: &List<ByteList>,
) -> Result<(u32, u32), FrontFault>
    requires few { length files.now ≤ 64 }
    requires short { All IsShort files.now }
    ensures keeps { S.files shelf.new ≡ S.files shelf.old }
    ensures none_falls { NoneFalls (counts_of (S.faults shelf.old) (S.misses shelf.old) (S.longs shelf.old))
        (counts_of (S.faults shelf.new) (S.misses shelf.new) (S.longs shelf.new)) }
    ensures caused { IfErr result (IsCaused (counts_of (S.faults shelf.old) (S.misses shelf.old) (S.longs shelf.old))
        (counts_of (S.faults shelf.new) (S.misses shelf.new) (S.longs shelf.new))) }
    ensures told { IfSome (S.files shelf.old) (λ held. IfErr result (IsToldIn held files.now)) }
{
    match front(alloc, shelf, project, files) {
        Ok(built) => Ok((built.defined_functions(), built.static_objects())),
        Err(fault) => Err(fault),
    }
}

/// The counts of files that are read.
pub fn files_checked<S: Shelf>(
    alloc: Global,
    shelf: &mut S,
    project: &Project,
    files: &List<ByteList>,
) -> Result<Output, Refusal>
    requires few { length files.now ≤ 64 }
    requires short { All IsShort files.now }
    ensures keeps { S.files shelf.new ≡ S.files shelf.old }
    ensures none_falls { NoneFalls (counts_of (S.faults shelf.old) (S.misses shelf.old) (S.longs shelf.old))
        (counts_of (S.faults shelf.new) (S.misses shelf.new) (S.longs shelf.new)) }
    ensures told { Tells (OfChecked project.now files.now) result }
    ensures caused { IfErr result (Caused (counts_of (S.faults shelf.old) (S.misses shelf.old) (S.longs shelf.old))
        (counts_of (S.faults shelf.new) (S.misses shelf.new) (S.longs shelf.new))) }
    ensures kind { IfErr result (λ refusal. status_of refusal ≢ 2) }
    ensures names { IfSome (S.files shelf.old) (λ held. IfErr result
        (FaultNames (IsIncludedIn held files.now))) }
{
    match numbers(alloc, shelf, project, files) {
        Ok((functions, objects)) => Ok(Output::plain(counts(
            alloc, project, functions, objects,
        )?.into_bytes())),
        Err(fault) => Err(of_front(alloc, project, fault)),
    }
}
