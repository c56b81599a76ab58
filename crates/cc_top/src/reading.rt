// Files of the shelf, or why they can't be had.
ghost use Rattle.std.specs.Prelude.{◌≡◌, ◌≢◌, ◌≤◌, ◌+◌, ◌++◌, ◌∷◌, [], All, IfErr, IfOk, IfSome, Some, length};
ghost use Rattle.std.specs.FinMap.{get};
ghost use Rattle.cc_top.specs.Counts.{Caused, NoneFalls, counts_of};
ghost use Rattle.cc_top.specs.Holds.{AddsHeld, IsShort};
ghost use Rattle.cc_top.specs.Refusal.{FaultNames, RefusesOne, RefusesRead, status_of};
ghost use Rattle.cc_project.specs.WellMade.{file_names_of};
ghost use Rattle.cc_first.specs.Limit.{limit};

use crate::refusal::Refusal;
use cc_base::{List, Memory, Text};
use cc_first::LIMIT;
use cc_io::{ByteList, Found, Shelf, ShelfFault};
use cc_project::ProjectFile;
use std::alloc::{AllocError, Global};

/// The text of this name.
pub fn text_of(alloc: Global, name: &str) -> Result<Text, AllocError>
    ensures { IfOk result (λ text. text ≡ name.now) }
{
    Ok(Text::new(String::from_str(alloc, name)?))
}

/// A file of at most LIMIT bytes, or why it can't be had.
pub fn read_file<S: Shelf>(alloc: Global, shelf: &mut S, name: &str) -> Result<ByteList, Refusal>
    ensures keeps { S.files shelf.new ≡ S.files shelf.old }
    ensures none_falls { NoneFalls (counts_of (S.faults shelf.old) (S.misses shelf.old) (S.longs shelf.old))
        (counts_of (S.faults shelf.new) (S.misses shelf.new) (S.longs shelf.new)) }

    ensures within { IfOk result (λ bytes. length bytes ≤ limit) }
    ensures held { IfSome (S.files shelf.old) (λ files. IfOk result (λ bytes. get files name.now ≡ Some bytes)) }
    ensures refused { IfSome (S.files shelf.old) (λ files. IfErr result (RefusesRead files name.now)) }

    ensures caused { IfErr result (Caused (counts_of (S.faults shelf.old) (S.misses shelf.old) (S.longs shelf.old))
        (counts_of (S.faults shelf.new) (S.misses shelf.new) (S.longs shelf.new))) }
    ensures kind { IfErr result (λ refusal. status_of refusal ≢ 2) }
    ensures names { IfErr result (FaultNames (λ told. told ≡ name.now)) }
{
    match shelf.read(alloc, name, LIMIT) {
        Ok(Found::File(bytes)) => Ok(bytes),
        Ok(Found::Absent) => Err(match text_of(alloc, name) {
            Ok(name) => Refusal::Missing(name),
            Err(_) => Refusal::Memory,
        }),
        Ok(Found::Long) => Err(match text_of(alloc, name) {
            Ok(name) => Refusal::TooLong(name),
            Err(_) => Refusal::Memory,
        }),
        Err(ShelfFault::Failed) => Err(match text_of(alloc, name) {
            Ok(name) => Refusal::ReadFault(name),
            Err(_) => Refusal::Memory,
        }),
        Err(ShelfFault::Memory) => Err(Refusal::Memory),
    }
}

// The list with these bytes last.
fn added(mut list: List<ByteList>, bytes: ByteList) -> Result<List<ByteList>, Memory>
    ensures { IfOk result (λ longer. longer ≡ list ++ bytes ∷ []) }
{
    list.push(bytes)?;
    Ok(list)
}

/// Reads these files in their order, up to the first that can't be had, and adds their bytes to those that are read.
pub fn read_files<S: Shelf>(
    alloc: Global,
    shelf: &mut S,
    files: &[ProjectFile],
    read: List<ByteList>,
) -> Result<List<ByteList>, Refusal>
    ensures keeps { S.files shelf.new ≡ S.files shelf.old }
    ensures none_falls { NoneFalls (counts_of (S.faults shelf.old) (S.misses shelf.old) (S.longs shelf.old))
        (counts_of (S.faults shelf.new) (S.misses shelf.new) (S.longs shelf.new)) }
    ensures count { IfOk result (λ list. length list ≡ length read + length files.now) }
    ensures within { All IsShort read → IfOk result (All IsShort) }
    ensures held { IfSome (S.files shelf.old) (λ held. IfOk result
        (AddsHeld held (file_names_of files.now) read)) }
    ensures refused { IfSome (S.files shelf.old) (λ held. IfErr result (RefusesOne held (file_names_of files.now))) }
    ensures caused { IfErr result (Caused (counts_of (S.faults shelf.old) (S.misses shelf.old) (S.longs shelf.old))
        (counts_of (S.faults shelf.new) (S.misses shelf.new) (S.longs shelf.new))) }
    ensures kind { IfErr result (λ refusal. status_of refusal ≢ 2) }
{
    let [file, rest @ ..] = files else {
        return Ok(read);
    };
    match read_file(alloc, shelf, file.name.as_str()) {
        Ok(bytes) => match added(read, bytes) {
            Ok(read) => read_files(alloc, shelf, rest, read),
            Err(_) => Err(Refusal::Memory),
        },
        Err(refusal) => Err(refusal),
    }
}
