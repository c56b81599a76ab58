// The tokens of a file of the project.
//
// Each step that reads the shelf says this: the files stay (`keeps`), no count falls (`none_falls`), a fault of a reading
// comes only where its count rose (`caused`), over a shelf that tells its files it names an included file and says what is so
// (`told`), and every other fault names a place in the project's file or in an included one (`place`).
ghost use Rattle.std.specs.Prelude.{◌≡◌, ◌≤◌, ◌<◌, ◌+◌, ◌*◌, ◌-◌, ◌⊎◌, ◌&&◌, ◌++◌, ◌∷◌, [], All, IfErr, IfOk, IfSome, OnOk, Option, Some, None, length, nat_le, nat_lt};
ghost use Rattle.std.specs.FinMap.{get};
ghost use Rattle.cc_lex.specs.Cut.{Cut, IsRefused};
ghost use Rattle.cc_prep.specs.Faults.{Caused, Counts, IsLexicalOf, IsPlaceless, IsTold, IsUnread, NamesPlace, NoneFalls, counts_of, fault_of};
ghost use Rattle.cc_io.specs.Shelf.{Files};
ghost use Rattle.cc_prep.specs.Files.{IsIncludeOf, IsOpen};
ghost use Rattle.cc_prep.specs.Marks.{IsMark};
ghost use Rattle.cc_prep.specs.Passages.{HasNoDirective, IsPassageFault};

use crate::directive::broken;
use crate::fault::{PrepFault, Stop};
use crate::file::{Include, OpenFile, State, read_on};
use crate::mark::Mark;
use crate::passage::next_passage;
use crate::rule::{TOO_MANY_INCLUDES, TOO_MANY_TOKENS};
use cc_base::{Bytes, Spot, Text};
use cc_io::{Found, Shelf, ShelfFault};
use cc_lex::{LexFault, TokenList, spot_of};
use std::alloc::{AllocError, Global};

/// The most bytes of a file.
const MOST_BYTES: u64 = 1_048_576;

/// How deep an include may be nested: the one in the project's file has depth 1.
const MOST_DEPTH: usize = 16;

/// How many includes a file of the project may have, nested ones counted.
const MOST_INCLUDES: u32 = 1_000;

// A file of the project.
#[derive(Clone, Copy)]
struct Source<'a> {
    name: &'a str,
    bytes: &'a [u8],
}

fn text_of(alloc: Global, name: &str) -> Result<Text, AllocError>
    ensures { IfOk result (λ text. text ≡ name.now) }
{
    Ok(Text::new(String::from_str(alloc, name)?))
}

// A lexical fault of the file of the project.
fn lexical(alloc: Global, source: &Source<'_>, fault: LexFault) -> PrepFault
    requires { length source.now.bytes.now ≤ 1048576 }
    ensures plain { IsRefused source.now.bytes.now fault
        → IsLexicalOf source.now.name.now source.now.bytes.now result }
    ensures caused { (old : Counts) → (new : Counts) → Caused old new result }
    ensures told { (files : Files) → IsTold files source.now.bytes.now result }
    ensures place { (files : Option Files) → NamesPlace files source.now.name.now source.now.bytes.now result }
{
    match fault {
        LexFault::At { offset, rule } => {
            let end = source.bytes.len() as u64;
            let spot = spot_of(source.bytes, if offset < end { offset } else { end });
            match text_of(alloc, source.name) {
                Ok(file) => PrepFault::Lexical { file, spot, rule },
                Err(_) => PrepFault::Memory,
            }
        }
        LexFault::Memory => PrepFault::Memory,
    }
}

// The fault by which the reading of a file stops. `project` is the name of the project's file.
fn stopped(alloc: Global, project: &str, file: &str, stop: Stop) -> PrepFault
    ensures { (result ≡ fault_of project.now file.now stop) ⊎ (result ≡ PrepFault.Memory) }
{
    let is_project = match stop {
        Stop::TooManyTokens(_) => true,
        _ => false,
    };
    match text_of(alloc, if is_project { project } else { file }) {
        Ok(file) => match stop {
            Stop::Lexical { spot, rule } => PrepFault::Lexical { file, spot, rule },
            Stop::Directive { spot, rule } => PrepFault::Directive { file, spot, rule },
            Stop::TooManyTokens(spot) => PrepFault::Directive {
                file,
                spot,
                rule: TOO_MANY_TOKENS,
            },
            Stop::Memory => PrepFault::Memory,
        },
        Err(_) => PrepFault::Memory,
    }
}

// The bytes of an included file, or why they can't be had.
fn bytes_of<S: Shelf>(alloc: Global, shelf: &mut S, name: &str) -> Result<Bytes, PrepFault>
    ensures keeps { S.files shelf.new ≡ S.files shelf.old }
    ensures none_falls { NoneFalls (counts_of (S.faults shelf.old) (S.misses shelf.old) (S.longs shelf.old))
        (counts_of (S.faults shelf.new) (S.misses shelf.new) (S.longs shelf.new)) }
    ensures within { IfOk result (λ bytes. length bytes ≤ 1048576) }
    ensures held { IfSome (S.files shelf.old) (λ files. IfOk result (λ bytes. get files name.now ≡ Some bytes)) }
    ensures told { IfSome (S.files shelf.old) (λ files. IfErr result (IsUnread files name.now)) }
    ensures caused { IfErr result (Caused (counts_of (S.faults shelf.old) (S.misses shelf.old) (S.longs shelf.old))
        (counts_of (S.faults shelf.new) (S.misses shelf.new) (S.longs shelf.new))) }
    ensures placeless { IfErr result IsPlaceless }
{
    match shelf.read(alloc, name, MOST_BYTES) {
        Ok(Found::File(bytes)) => Ok(bytes),
        Ok(Found::Absent) => Err(match text_of(alloc, name) {
            Ok(file) => PrepFault::Missing { file },
            Err(_) => PrepFault::Memory,
        }),
        Ok(Found::Long) => Err(match text_of(alloc, name) {
            Ok(file) => PrepFault::TooLong { file },
            Err(_) => PrepFault::Memory,
        }),
        Err(ShelfFault::Failed) => Err(match text_of(alloc, name) {
            Ok(file) => PrepFault::ReadFault { file },
            Err(_) => PrepFault::Memory,
        }),
        Err(ShelfFault::Memory) => Err(PrepFault::Memory),
    }
}

// The file of the project, before its first line.
fn project_file(alloc: Global, source: &Source<'_>) -> Result<OpenFile, AllocError>
    requires { length source.now.bytes.now ≤ 1048576 }
    ensures { IfOk result (λ file. (files : Option Files) → IsOpen files source.now.name.now source.now.bytes.now file) }
{
    let name = text_of(alloc, source.name)?;
    let bytes = source.bytes.to_vec(alloc)?;
    Ok(OpenFile {
        name,
        bytes: Bytes::new(bytes),
        outermost: None,
        mark: Mark::start(),
        groups: Vec::new(alloc),
    })
}

// An included file, before its first line.
fn included_file(alloc: Global, name: Text, bytes: Bytes, outermost: Spot) -> OpenFile
    ensures name { result.name ≡ name }
    ensures bytes { result.bytes ≡ bytes }
    ensures outermost { result.outermost ≡ Some outermost }
    ensures mark { IsMark bytes result.mark }
{
    OpenFile {
        name,
        bytes,
        outermost: Some(outermost),
        mark: Mark::start(),
        groups: Vec::new(alloc),
    }
}

// Whether a file that is nested so deep may be included after so many.
fn may_include(depth: usize, includes: u32) -> bool
    ensures { result ≡ (nat_le depth 16 && nat_lt includes 1000) }
{
    depth <= MOST_DEPTH && includes < MOST_INCLUDES
}

// The file that a line of this file includes.
fn open<S: Shelf>(
    alloc: Global,
    shelf: &mut S,
    source: &Source<'_>,
    outer: &OpenFile,
    include: Include,
) -> Result<OpenFile, PrepFault>
    requires outer { IsOpen (S.files shelf.old) source.now.name.now source.now.bytes.now outer.now }
    requires include { IsIncludeOf outer.now.bytes include }
    ensures open { IfOk result (IsOpen (S.files shelf.old) source.now.name.now source.now.bytes.now) }
    ensures keeps { S.files shelf.new ≡ S.files shelf.old }
    ensures none_falls { NoneFalls (counts_of (S.faults shelf.old) (S.misses shelf.old) (S.longs shelf.old))
        (counts_of (S.faults shelf.new) (S.misses shelf.new) (S.longs shelf.new)) }
    ensures caused { IfErr result (Caused (counts_of (S.faults shelf.old) (S.misses shelf.old) (S.longs shelf.old))
        (counts_of (S.faults shelf.new) (S.misses shelf.new) (S.longs shelf.new))) }
    ensures told { IfSome (S.files shelf.old) (λ files. IfErr result (IsTold files source.now.bytes.now)) }
    ensures place { IfErr result (NamesPlace (S.files shelf.old) source.now.name.now source.now.bytes.now) }
{
    let outermost = match outer.outermost {
        Some(spot) => spot,
        None => include.hash,
    };
    match bytes_of(alloc, shelf, include.name.as_str()) {
        Ok(bytes) => Ok(included_file(alloc, include.name, bytes, outermost)),
        Err(fault) => Err(fault),
    }
}

// Puts a file back, and the one that it includes behind it.
fn put_both(files: &mut Vec<OpenFile>, outer: OpenFile, inner: OpenFile) -> Result<(), PrepFault>
    ensures ok { OnOk result (files.new.items ≡ (files.old.items ++ outer ∷ []) ++ inner ∷ []) }
    ensures err { IfErr result (λ fault. fault ≡ PrepFault.Memory) }
{
    match files.push(outer) {
        Ok(()) => {}
        Err(_) => return Err(PrepFault::Memory),
    }
    match files.push(inner) {
        Ok(()) => Ok(()),
        Err(_) => Err(PrepFault::Memory),
    }
}

// Reads the innermost file on, which stands in the others; at its end it goes. Where it includes a file, it is put back to
// the others, and that file behind it.
fn read_innermost<S: Shelf>(
    alloc: Global,
    shelf: &mut S,
    source: &Source<'_>,
    mut file: OpenFile,
    others: &mut Vec<OpenFile>,
    state: &mut State,
    includes: &mut u32,
) -> Result<(), PrepFault>
    requires file { IsOpen (S.files shelf.old) source.now.name.now source.now.bytes.now file }
    requires others { All (IsOpen (S.files shelf.old) source.now.name.now source.now.bytes.now) others.old.items }
    requires includes { includes.old ≤ 1000 }
    ensures others { OnOk result (All (IsOpen (S.files shelf.old) source.now.name.now source.now.bytes.now) others.new.items) }
    ensures includes { OnOk result (includes.new ≤ 1000) }
    ensures less { OnOk result (length others.new.items + 2 * (1000 - includes.new)
        ≤ length others.old.items + 2 * (1000 - includes.old)) }
    ensures keeps { S.files shelf.new ≡ S.files shelf.old }
    ensures none_falls { NoneFalls (counts_of (S.faults shelf.old) (S.misses shelf.old) (S.longs shelf.old))
        (counts_of (S.faults shelf.new) (S.misses shelf.new) (S.longs shelf.new)) }
    ensures caused { IfErr result (Caused (counts_of (S.faults shelf.old) (S.misses shelf.old) (S.longs shelf.old))
        (counts_of (S.faults shelf.new) (S.misses shelf.new) (S.longs shelf.new))) }
    ensures told { IfSome (S.files shelf.old) (λ files. IfErr result (IsTold files source.now.bytes.now)) }
    ensures place { IfErr result (NamesPlace (S.files shelf.old) source.now.name.now source.now.bytes.now) }
{
    match read_on(alloc, &mut file, state) {
        Ok(None) => Ok(()),
        Ok(Some(include)) => {
            if !may_include(others.len() + 1, *includes) {
                let stop = broken(TOO_MANY_INCLUDES, include.hash);
                return Err(stopped(alloc, source.name, file.name.as_str(), stop));
            }
            *includes += 1;
            match open(alloc, shelf, source, &file, include) {
                Ok(inner) => put_both(others, file, inner),
                Err(fault) => Err(fault),
            }
        }
        Err(stop) => Err(stopped(alloc, source.name, file.name.as_str(), stop)),
    }
}

// Reads the project's file and all that it includes.
fn read_all<S: Shelf>(
    alloc: Global,
    shelf: &mut S,
    source: &Source<'_>,
    file: OpenFile,
) -> Result<TokenList, PrepFault>
    requires { IsOpen (S.files shelf.old) source.now.name.now source.now.bytes.now file }
    ensures keeps { S.files shelf.new ≡ S.files shelf.old }
    ensures none_falls { NoneFalls (counts_of (S.faults shelf.old) (S.misses shelf.old) (S.longs shelf.old))
        (counts_of (S.faults shelf.new) (S.misses shelf.new) (S.longs shelf.new)) }
    ensures caused { IfErr result (Caused (counts_of (S.faults shelf.old) (S.misses shelf.old) (S.longs shelf.old))
        (counts_of (S.faults shelf.new) (S.misses shelf.new) (S.longs shelf.new))) }
    ensures told { IfSome (S.files shelf.old) (λ files. IfErr result (IsTold files source.now.bytes.now)) }
    ensures place { IfErr result (NamesPlace (S.files shelf.old) source.now.name.now source.now.bytes.now) }
{
    let mut state = State::new(alloc);
    let mut files = Vec::new(alloc);
    let mut includes = 0;
    match files.push(file) {
        Ok(()) => {}
        Err(_) => return Err(PrepFault::Memory),
    }
    while let Some(file) = files.pop() {
        match read_innermost(
            alloc,
            shelf,
            source,
            file,
            &mut files,
            &mut state,
            &mut includes,
        ) {
            Ok(()) => {}
            Err(fault) => return Err(fault),
        }
    }
    Ok(state.output.tokens)
}

// Carries out the directive lines of a file that has some.
fn carry_out<S: Shelf>(
    alloc: Global,
    shelf: &mut S,
    source: &Source<'_>,
) -> Result<TokenList, PrepFault>
    requires { length source.now.bytes.now ≤ 1048576 }
    ensures keeps { S.files shelf.new ≡ S.files shelf.old }
    ensures none_falls { NoneFalls (counts_of (S.faults shelf.old) (S.misses shelf.old) (S.longs shelf.old))
        (counts_of (S.faults shelf.new) (S.misses shelf.new) (S.longs shelf.new)) }
    ensures caused { IfErr result (Caused (counts_of (S.faults shelf.old) (S.misses shelf.old) (S.longs shelf.old))
        (counts_of (S.faults shelf.new) (S.misses shelf.new) (S.longs shelf.new))) }
    ensures told { IfSome (S.files shelf.old) (λ files. IfErr result (IsTold files source.now.bytes.now)) }
    ensures place { IfErr result (NamesPlace (S.files shelf.old) source.now.name.now source.now.bytes.now) }
{
    match project_file(alloc, source) {
        Ok(file) => read_all(alloc, shelf, source, file),
        Err(_) => Err(PrepFault::Memory),
    }
}

/// The tokens of a file of the project: its directive lines are carried out, and each included file is read from the shelf
/// under the name as written.
///
/// # Errors
///
/// The first fault in the order of the text, included files in their places: `Lexical` for rules L1 to L9, `Directive` for
/// M1 to M7, and of an included file that it can't be read, isn't there or has more than 1,048,576 bytes. `Memory` may come
/// at any step.
pub fn expand<S: Shelf>(
    alloc: Global,
    shelf: &mut S,
    name: &str,
    bytes: &[u8],
) -> Result<TokenList, PrepFault>
    requires { length bytes.now ≤ 1048576 }
    // A file without a directive line has the tokens of its bytes, or their lexical fault.
    ensures plain { HasNoDirective bytes.now → IfOk result (Cut bytes.now) }
    ensures plain_fault { HasNoDirective bytes.now → IfErr result (IsLexicalOf name.now bytes.now) }
    ensures keeps { S.files shelf.new ≡ S.files shelf.old }
    ensures none_falls { NoneFalls (counts_of (S.faults shelf.old) (S.misses shelf.old) (S.longs shelf.old))
        (counts_of (S.faults shelf.new) (S.misses shelf.new) (S.longs shelf.new)) }
    ensures caused { IfErr result (Caused (counts_of (S.faults shelf.old) (S.misses shelf.old) (S.longs shelf.old))
        (counts_of (S.faults shelf.new) (S.misses shelf.new) (S.longs shelf.new))) }
    ensures told { IfSome (S.files shelf.old) (λ files. IfErr result (IsTold files bytes.now)) }
    ensures place { IfErr result (NamesPlace (S.files shelf.old) name.now bytes.now) }
{
    let source = Source { name, bytes };
    let passage = match next_passage(alloc, bytes, false) {
        Ok(passage) => passage,
        Err(fault) => return Err(lexical(alloc, &source, fault)),
    };
    match passage.line {
        None => Ok(passage.tokens),
        Some(_) => carry_out(alloc, shelf, &source),
    }
}
