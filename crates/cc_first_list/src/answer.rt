// What is answered for a project of the first form.
ghost use Rattle.std.specs.Prelude.{◌≡◌, ◌≤◌, ◌∷◌, ◌↔◌, [], All, IfNone, IfOk, IfSome, IsTrue, length};
ghost use Rattle.cc_first.specs.Limit.{limit};
ghost use Rattle.cc_first.specs.Linked.{IsUnlinked};
ghost use Rattle.cc_first.specs.Project.{IsWell};
ghost use Rattle.cc_first.specs.Unit.{HaveFreeNames, program_of};
ghost use Rattle.cc_first.specs.Views.{parts_view, project_view};
ghost use Rattle.cc_project.specs.WellMade.{file_names_of};
ghost use Rattle.cc_first_list.specs.First as spec;

use crate::points::{MOST_POINTS, points};
use cc_first::{Part, Project, read_document, read_project, read_unit, table};
use cc_io::ByteList;
use cc_project::ProjectFile;
use std::alloc::{AllocError, Global};

/// What is answered for a project of the first form.
#[derive(Drop)]
pub enum Answer {
    /// The table of its call couplings.
    Table(Vec<u8>),
    /// It has more control points than [`MOST_POINTS`]: this many, where 2^64 - 1 stands for that many or more.
    TooManyPoints(u64),
}

// The table of a program, or the number of its points where they are too many.
fn limited(text: Vec<u8>, count: u64) -> Answer
    ensures { result ≡ spec.limited text count }
{
    if count > MOST_POINTS {
        Answer::TooManyPoints(count)
    } else {
        Answer::Table(text)
    }
}

// What is answered for the program of two units; nothing where it has no such entry or is not whole.
fn units_answer(
    alloc: Global,
    project: &Project<'_>,
    first: &[Part<'_>],
    second: &[Part<'_>],
) -> Result<Option<Answer>, AllocError>
    requires well { IsWell (project_view project.now) }
    requires first { HaveFreeNames (parts_view first.now) }
    requires second { HaveFreeNames (parts_view second.now) }
    ensures some { IfOk result (λ read. IfSome read (spec.AnswersUnits (project_view project.now)
        (parts_view first.now) (parts_view second.now))) }
    ensures none { IfOk result (λ read. IfNone read (IsUnlinked
        (program_of (parts_view first.now) (parts_view second.now)) project.now.entry.now)) }
{
    match table(alloc, project, first, second)? {
        Some(text) => Ok(Some(limited(text, points(first, second)))),
        None => Ok(None),
    }
}

// What is answered for two files; nothing where they are not of the first form.
fn files_answer(
    alloc: Global,
    project: &Project<'_>,
    first: &[u8],
    second: &[u8],
) -> Result<Option<Answer>, AllocError>
    requires well { IsWell (project_view project.now) }
    requires first { length first.now ≤ limit }
    requires second { length second.now ≤ limit }
    ensures some { IfOk result (λ read. IfSome read
        (spec.AnswersFiles (project_view project.now) first.now second.now)) }
    ensures none { IfOk result (λ read. IfNone read
        (spec.AreNone (project_view project.now) first.now second.now)) }
{
    let Some(parts) = read_unit(alloc, first)? else {
        return Ok(None);
    };
    let Some(others) = read_unit(alloc, second)? else {
        return Ok(None);
    };
    units_answer(alloc, project, &parts, &others)
}

// Whether the files are named as the project says.
fn are_named(project: &Project<'_>, first: &ProjectFile, second: &ProjectFile) -> bool
    ensures { IsTrue result ↔ spec.AreNamed (project_view project.now) first.now.name second.now.name }
{
    first.name.as_str() == project.first.file && second.name.as_str() == project.second.file
}

// What is answered for a project file and two C files; nothing where they are not of the first form.
fn two_answer(
    alloc: Global,
    bytes: &[u8],
    files: (&ProjectFile, &ProjectFile),
    contents: (&[u8], &[u8]),
) -> Result<Option<Answer>, AllocError>
    requires first { length contents.0.now ≤ limit }
    requires second { length contents.1.now ≤ limit }
    ensures some { IfOk result (λ read. IfSome read (spec.Answers bytes.now
        (files.entry.0.now.name ∷ files.entry.1.now.name ∷ []) (contents.entry.0.now ∷ contents.entry.1.now ∷ []))) }
    ensures none { IfOk result (λ read. IfNone read (spec.IsFirst bytes.now
        (files.entry.0.now.name ∷ files.entry.1.now.name ∷ []) (contents.entry.0.now ∷ contents.entry.1.now ∷ []) → ⊥)) }
{
    let Some(document) = read_document(alloc, bytes)? else {
        return Ok(None);
    };
    match read_project(&document) {
        Some(project) => {
            if are_named(&project, files.0, files.1) {
                files_answer(alloc, &project, contents.0, contents.1)
            } else {
                Ok(None)
            }
        }
        None => Ok(None),
    }
}

// The two files, where there are two.
fn two_of(files: &[ProjectFile]) -> Option<(&ProjectFile, &ProjectFile)>
    ensures some { IfSome result (λ two. file_names_of files.now ≡ two.0.now.name ∷ two.1.now.name ∷ []) }
    ensures none { IfNone result (length files.now ≡ 2 → ⊥) }
{
    match files {
        [one, two] => Some((one, two)),
        _ => None,
    }
}

/// What is answered for a project file with these bytes, whose C files are these and have these contents; nothing where
/// they are not of the first form. Needs contents of at most 1,048,576 bytes each. The error is want of memory.
pub fn first_answer(
    alloc: Global,
    bytes: &[u8],
    files: &[ProjectFile],
    contents: &[ByteList],
) -> Result<Option<Answer>, AllocError>
    requires { All (λ content. length content ≤ limit) contents.now }
    ensures some { IfOk result (λ read. IfSome read
        (spec.Answers bytes.now (file_names_of files.now) contents.now)) }
    ensures none { IfOk result (λ read. IfNone read
        (spec.IsFirst bytes.now (file_names_of files.now) contents.now → ⊥)) }
{
    let Some(two) = two_of(files) else {
        return Ok(None);
    };
    let [first, second] = contents else {
        return Ok(None);
    };
    two_answer(alloc, bytes, two, (first.bytes(), second.bytes()))
}
