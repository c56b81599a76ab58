// The steps from the words to the text, in their order.
//
// Each step that reads the shelf says this: the files stay (`keeps`), no count falls (`none_falls`), a refusal to read
// comes only where its count rose (`caused`), and over a shelf that tells its files what the text or the refusal stands
// for is what the definitions allow (`told`), and a read fault names a file that they may read (`names`).
ghost use Rattle.std.specs.Prelude.{◌≡◌, ◌≢◌, ◌↔◌, ◌≤◌, ℕ, All, Err, IfErr, IfSome, length, map, string_bytes};
ghost use Rattle.cc_project.specs.WellMade.{file_names_of};
ghost use Rattle.cc_top.specs.Answer.{AfterFiles, AfterRead, IsAnswer, OfBytes, OfFiles};
ghost use Rattle.cc_top.specs.Counts.{Caused, NoneFalls, counts_of};
ghost use Rattle.cc_top.specs.Holds.{IsShort};
ghost use Rattle.cc_top.specs.Reads.{Beside, IsIncludedIn, MayBeReached, MayBeReadFor, MayRead};
ghost use Rattle.cc_top.specs.Refusal.{FaultNames, status_of};
ghost use Rattle.cc_top.specs.Tells.{IsNamed, Tells};
ghost use Rattle.cc_top.specs.Words.{IsNoCommand, gen_words};

use crate::check::files_checked;
use crate::devices::devices_reported;
use crate::faults::of_project;
use crate::generated::generated_text;
use crate::list::files_listed;
use crate::output::Output;
use crate::reading::{read_file, read_files};
use crate::refusal::Refusal;
use crate::reports::files_reported;
use crate::words::{Command, command_of};
use crate::work::Work;
use cc_base::List;
use cc_io::{ByteList, Shelf};
use cc_project::{Project, read_project};
use std::alloc::Global;

// The text for files that are read, where the project file has this name and these bytes.
fn files_text<S: Shelf>(
    alloc: Global,
    shelf: &mut S,
    work: Work<'_>,
    name: &str,
    bytes: &[u8],
    project: &Project,
    files: &List<ByteList>,
) -> Result<Output, Refusal>
    requires few { length files.now ≤ 64 }
    requires short { All IsShort files.now }
    ensures keeps { S.files shelf.new ≡ S.files shelf.old }
    ensures none_falls { NoneFalls (counts_of (S.faults shelf.old) (S.misses shelf.old) (S.longs shelf.old))
        (counts_of (S.faults shelf.new) (S.misses shelf.new) (S.longs shelf.new)) }
    ensures told { IfSome (S.files shelf.old) (λ held. Tells (OfFiles work.entry held name.now bytes.now project.now files.now) result) }
    ensures caused { IfErr result (Caused (counts_of (S.faults shelf.old) (S.misses shelf.old) (S.longs shelf.old))
        (counts_of (S.faults shelf.new) (S.misses shelf.new) (S.longs shelf.new))) }
    ensures kind { IfErr result (λ refusal. status_of refusal ≢ 2) }
    ensures names { IfSome (S.files shelf.old) (λ held. IfErr result
        (FaultNames (Beside work.entry (IsIncludedIn held files.now)))) }
{
    match work {
        Work::List => files_listed(alloc, shelf, bytes, project, files),
        Work::Check => files_checked(alloc, shelf, project, files),
        Work::Report(what) => files_reported(alloc, shelf, what, name, project, files),
        Work::Devices(devices) => devices_reported(alloc, shelf, devices, project, files),
    }
}

// Reads the files of the project, and gives the text for them.
fn project_text<S: Shelf>(
    alloc: Global,
    shelf: &mut S,
    work: Work<'_>,
    name: &str,
    bytes: &[u8],
    project: &Project,
) -> Result<Output, Refusal>
    ensures keeps { S.files shelf.new ≡ S.files shelf.old }
    ensures none_falls { NoneFalls (counts_of (S.faults shelf.old) (S.misses shelf.old) (S.longs shelf.old))
        (counts_of (S.faults shelf.new) (S.misses shelf.new) (S.longs shelf.new)) }
    ensures told { IfSome (S.files shelf.old) (λ files.
        Tells (AfterFiles files (file_names_of project.now.files) (OfFiles work.entry files name.now bytes.now project.now)) result) }
    ensures caused { IfErr result (Caused (counts_of (S.faults shelf.old) (S.misses shelf.old) (S.longs shelf.old))
        (counts_of (S.faults shelf.new) (S.misses shelf.new) (S.longs shelf.new))) }
    ensures kind { IfErr result (λ refusal. status_of refusal ≢ 2) }
    ensures names { IfSome (S.files shelf.old) (λ files. IfErr result
        (FaultNames (Beside work.entry (MayBeReached files (file_names_of project.now.files))))) }
{
    match read_files(alloc, shelf, project.files.as_slice(), List::new(alloc)) {
        Ok(files) => files_text(alloc, shelf, work, name, bytes, project, &files),
        Err(refusal) => Err(refusal),
    }
}

// The text for a project whose file is read.
fn document_text<S: Shelf>(
    alloc: Global,
    shelf: &mut S,
    work: Work<'_>,
    name: &str,
    bytes: &[u8],
) -> Result<Output, Refusal>
    ensures keeps { S.files shelf.new ≡ S.files shelf.old }
    ensures none_falls { NoneFalls (counts_of (S.faults shelf.old) (S.misses shelf.old) (S.longs shelf.old))
        (counts_of (S.faults shelf.new) (S.misses shelf.new) (S.longs shelf.new)) }
    ensures told { IfSome (S.files shelf.old) (λ files. Tells (OfBytes work.entry files name.now bytes.now) result) }
    ensures caused { IfErr result (Caused (counts_of (S.faults shelf.old) (S.misses shelf.old) (S.longs shelf.old))
        (counts_of (S.faults shelf.new) (S.misses shelf.new) (S.longs shelf.new))) }
    ensures kind { IfErr result (λ refusal. status_of refusal ≢ 2) }
    ensures names { IfSome (S.files shelf.old) (λ files. IfErr result (FaultNames (Beside work.entry (IsNamed files bytes.now)))) }
{
    match read_project(alloc, bytes) {
        Ok(project) => project_text(alloc, shelf, work, name, bytes, &project),
        Err(fault) => Err(of_project(alloc, name, fault)),
    }
}

/// The text for the project whose file has this name.
pub fn task_text<S: Shelf>(
    alloc: Global,
    shelf: &mut S,
    work: Work<'_>,
    name: &str,
) -> Result<Output, Refusal>
    ensures keeps { S.files shelf.new ≡ S.files shelf.old }
    ensures none_falls { NoneFalls (counts_of (S.faults shelf.old) (S.misses shelf.old) (S.longs shelf.old))
        (counts_of (S.faults shelf.new) (S.misses shelf.new) (S.longs shelf.new)) }
    ensures told { IfSome (S.files shelf.old) (λ files. Tells (AfterRead files name.now (OfBytes work.entry files name.now)) result) }
    ensures caused { IfErr result (Caused (counts_of (S.faults shelf.old) (S.misses shelf.old) (S.longs shelf.old))
        (counts_of (S.faults shelf.new) (S.misses shelf.new) (S.longs shelf.new))) }
    ensures kind { IfErr result (λ refusal. status_of refusal ≢ 2) }
    ensures names { IfSome (S.files shelf.old) (λ files. IfErr result (FaultNames (Beside work.entry (MayBeReadFor files name.now)))) }
{
    match read_file(alloc, shelf, name) {
        Ok(file) => document_text(alloc, shelf, work, name, file.bytes()),
        Err(refusal) => Err(refusal),
    }
}

/// The text for the words, or why there is none.
pub fn text_for<S: Shelf>(alloc: Global, words: &[String], shelf: &mut S) -> Result<Output, Refusal>
    ensures keeps { S.files shelf.new ≡ S.files shelf.old }
    ensures none_falls { NoneFalls (counts_of (S.faults shelf.old) (S.misses shelf.old) (S.longs shelf.old))
        (counts_of (S.faults shelf.new) (S.misses shelf.new) (S.longs shelf.new)) }
    ensures told { IfSome (S.files shelf.old) (λ files.
        Tells (IsAnswer (map string_bytes words.now) files) result) }
    ensures caused { IfErr result (Caused
        (counts_of (S.faults shelf.old) (S.misses shelf.old) (S.longs shelf.old))
        (counts_of (S.faults shelf.new) (S.misses shelf.new) (S.longs shelf.new))) }
    ensures names { IfSome (S.files shelf.old) (λ files. IfErr result
        (FaultNames (MayRead (map string_bytes words.now) files))) }
    ensures usage { (result ≡ Err Refusal.Usage) ↔ IsNoCommand (map string_bytes words.now) }
    ensures untouched { result ≡ Err Refusal.Usage → shelf.new ≡ shelf.old }
    ensures apart { (n : ℕ) → map string_bytes words.now ≡ gen_words n → shelf.new ≡ shelf.old }
{
    match command_of(words) {
        Some(Command::Project { task, name }) => task_text(alloc, shelf, task.work(), name),
        Some(Command::Generated(count)) => generated_text(alloc, count),
        Some(Command::Devices { name, devices }) => {
            task_text(alloc, shelf, Work::Devices(devices), name)
        }
        None => Err(Refusal::Usage),
    }
}
