// The reading of one file.
//
// Each step says this: the mark stays a place of the bytes and moves on (`mark`), a file that is included is named by a part
// of the bytes, and its line's `#` is a place of them (`include`), and a stop is at a place of them (`stops`).
ghost use Rattle.std.specs.Prelude.{◌≡◌, ◌≤◌, ◌<◌, ◌+◌, IfErr, IfOk, IfSome, OnOk, length, drop, slice_range};
ghost use Rattle.cc_lex.specs.Cut.{Cut};
ghost use Rattle.cc_prep.specs.Files.{IsIncludeOf};
ghost use Rattle.cc_prep.specs.Kinds.{IsOneString};
ghost use Rattle.cc_prep.specs.Marks.{IsMark};
ghost use Rattle.cc_prep.specs.Passages.{IsLineOf, IsPassage};
ghost use Rattle.cc_prep.specs.Stops.{IsBroken, IsDirectiveIn, IsLexicalIn, IsLocalStop, IsStopIn, IsTooManyIn, origin_in};

use crate::directive::{broken, define, included, nothing, only_name, undef};
use crate::fault::Stop;
use crate::group::{Group, close_group, has_own_elif, is_active, open_group, turn_group};
use crate::line::Word;
use crate::macros::{Hidden, Macros};
use crate::mark::Mark;
use crate::output::Output;
use crate::passage::{Line, Passage, next_group_line, next_passage};
use crate::replacement::{Origin, add_text};
use crate::rule::{UNPAIRED, WRONG_REST};
use cc_base::{Bytes, Spot, Text};
use cc_lex::laws::each_token_has_the_spot_of_its_offset;
use cc_lex::{LexFault, Token, TokenList, lex};
use std::alloc::Global;

/// What the reading of a file of the project has come to.
#[derive(Drop)]
pub struct State {
    pub macros: Macros,
    pub hidden: Hidden,
    pub output: Output,
}

impl State {
    /// Before the first line. Takes no memory.
    pub fn new(alloc: Global) -> State {
        State {
            macros: Macros::new(alloc),
            hidden: Hidden::new(alloc),
            output: Output::new(alloc),
        }
    }

    // Adds what the tokens of a text stand for.
    fn add_text(&mut self, alloc: Global, tokens: &[Token], origin: Origin) -> Result<(), Stop>
        ensures { IfErr result (IsTooManyIn origin tokens.now) }
    {
        add_text(
            alloc,
            &self.macros,
            &mut self.hidden,
            &mut self.output,
            tokens,
            origin,
        )
    }
}

/// A file that is being read.
#[derive(Drop)]
pub struct OpenFile {
    pub name: Text,
    pub bytes: Bytes,
    /// The `#` of the outermost `include` line, in the project's file; none for the project's file itself.
    pub outermost: Option<Spot>,
    /// The beginning of the first line that isn't read yet.
    pub mark: Mark,
    /// The groups that are open, the innermost last.
    pub groups: Vec<Group>,
}

/// A file that is to be read next, in the place of an `include` line.
#[derive(Drop)]
pub struct Include {
    /// The name in the line.
    pub name: Text,
    /// Where the line's `#` stands.
    pub hash: Spot,
}

// The lexical fault of the part of a file from the mark to `end`.
fn lexical(bytes: &[u8], from: Mark, end: usize, fault: LexFault) -> Stop
    requires small { length bytes.now ≤ 1048576 }
    requires from { IsMark bytes.now from }
    requires before { from.at ≤ end }
    requires within { end ≤ length bytes.now }
    ensures { IsLexicalIn bytes.now result }
{
    match fault {
        LexFault::At { offset, rule } => {
            let len = (end - from.at) as u64;
            let inside = if offset < len { offset } else { len };
            Stop::Lexical {
                spot: from.to(bytes, from.at + inside as usize).spot,
                rule,
            }
        }
        LexFault::Memory => Stop::Memory,
    }
}

// The tokens of the rest of a directive line, from the mark to `end`.
fn tokens_of(alloc: Global, bytes: &[u8], rest: Mark, end: usize) -> Result<TokenList, Stop>
    requires small { length bytes.now ≤ 1048576 }
    requires from { IsMark bytes.now rest }
    requires before { rest.at ≤ end }
    requires within { end ≤ length bytes.now }
    ensures cut { IfOk result (Cut (slice_range bytes.now rest.at end)) }
    ensures stops { IfErr result (IsLexicalIn bytes.now) }
{
    match lex(alloc, &bytes[rest.at..end]) {
        Ok(tokens) => Ok(tokens),
        Err(fault) => Err(lexical(bytes, rest, end, fault)),
    }
}

// The group line may stand there, or M3 is broken.
fn paired(may_stand: bool, hash: Spot) -> Result<(), Stop>
    ensures { IfErr result (IsBroken hash) }
{
    if may_stand {
        Ok(())
    } else {
        Err(broken(UNPAIRED, hash))
    }
}

// Carries out a directive line where text is read, given by the tokens of its rest: the file that it includes, if any.
fn carry_out(
    alloc: Global,
    macros: &mut Macros,
    groups: &mut Vec<Group>,
    word: Word,
    tokens: &[Token],
    hash: Mark,
) -> Result<Option<Include>, Stop>
    ensures name { IfOk result (λ o. IfSome o (λ include. IsOneString tokens.now include.name)) }
    ensures hash { IfOk result (λ o. IfSome o (λ include. include.hash ≡ hash.spot)) }
    ensures stops { IfErr result (IsBroken hash.spot) }
{
    let spot = hash.spot;
    match word {
        Word::Define => define(alloc, macros, tokens, spot)?,
        Word::Undef => undef(alloc, macros, tokens, spot)?,
        Word::Include => {
            let name = included(alloc, tokens, spot)?;
            return Ok(Some(Include { name, hash: spot }));
        }
        Word::Ifdef => {
            let name = only_name(tokens, spot)?;
            open_group(groups, hash.at, macros.find(name).is_some())?;
        }
        Word::Ifndef => {
            let name = only_name(tokens, spot)?;
            open_group(groups, hash.at, macros.find(name).is_none())?;
        }
        Word::Else => {
            nothing(tokens, spot)?;
            paired(turn_group(groups), spot)?;
        }
        Word::Endif => {
            nothing(tokens, spot)?;
            paired(close_group(groups).is_some(), spot)?;
        }
        Word::If | Word::Elif => return Err(broken(WRONG_REST, spot)),
    }
    Ok(None)
}

// Carries out a group line where text is not read.
fn pass_over(groups: &mut Vec<Group>, word: Word, hash: Mark) -> Result<(), Stop>
    ensures { IfErr result (IsBroken hash.spot) }
{
    match word {
        Word::If | Word::Ifdef | Word::Ifndef => open_group(groups, hash.at, false)?,
        Word::Else => paired(turn_group(groups), hash.spot)?,
        Word::Endif => paired(close_group(groups).is_some(), hash.spot)?,
        Word::Elif => {
            if has_own_elif(groups) {
                return Err(broken(WRONG_REST, hash.spot));
            }
        }
        Word::Define | Word::Undef | Word::Include => {}
    }
    Ok(())
}

// The end of a file: no group is open.
fn end(bytes: &[u8], groups: &[Group]) -> Result<(), Stop>
    requires { length bytes.now ≤ 1048576 }
    ensures { IfErr result (IsDirectiveIn bytes.now) }
{
    match groups.first() {
        Some(group) => {
            let at = if group.hash < bytes.len() {
                group.hash
            } else {
                bytes.len()
            };
            Err(broken(UNPAIRED, Mark::start().to(bytes, at).spot))
        }
        None => Ok(()),
    }
}

// Where the parts of a directive line stand.
#[derive(Clone, Copy)]
struct Parts {
    // The line's `#`.
    hash: Mark,
    // What follows its word.
    rest: Mark,
    // The next line.
    end: Mark,
}

// The parts of the line, in text that begins at the mark.
fn parts_of(bytes: &[u8], mark: Mark, line: Line) -> Parts
    requires small { length bytes.now ≤ 1048576 }
    requires mark { IsMark bytes.now mark }
    requires line { IsLineOf (drop mark.at bytes.now) line }
    ensures hash { IsMark bytes.now result.hash }
    ensures rest { IsMark bytes.now result.rest }
    ensures end { IsMark bytes.now result.end }
    ensures before { result.rest.at ≤ result.end.at }
    ensures behind { mark.at < result.end.at }
{
    let begin = mark.to(bytes, mark.at + line.at);
    let hash = begin.to(bytes, begin.at + line.head.hash);
    let rest = hash.to(bytes, begin.at + line.head.rest);
    let end = rest.to(bytes, begin.at + line.len);
    Parts { hash, rest, end }
}

// The next passage of the file, from the mark on.
fn passage_at(alloc: Global, bytes: &[u8], mark: Mark, in_group: bool) -> Result<Passage, Stop>
    requires small { length bytes.now ≤ 1048576 }
    requires mark { IsMark bytes.now mark }
    ensures passage { IfOk result (IsPassage (drop mark.at bytes.now) in_group) }
    ensures stops { IfErr result (IsLexicalIn bytes.now) }
{
    match next_passage(alloc, &bytes[mark.at..], in_group) {
        Ok(passage) => Ok(passage),
        Err(fault) => Err(lexical(bytes, mark, bytes.len(), fault)),
    }
}

// Where the tokens of a file's text stand that begins at this spot.
fn origin_of(outermost: Option<Spot>, spot: Spot) -> Origin
    ensures { result ≡ origin_in outermost spot }
{
    match outermost {
        Some(at) => Origin::Included(at),
        None => Origin::Project(spot),
    }
}

// Carries out a directive line of the text that begins at the mark. Moves the mark behind it.
fn read_line(
    alloc: Global,
    bytes: &[u8],
    mark: &mut Mark,
    line: Line,
    groups: &mut Vec<Group>,
    macros: &mut Macros,
) -> Result<Option<Include>, Stop>
    requires small { length bytes.now ≤ 1048576 }
    requires mark { IsMark bytes.now mark.old }
    requires line { IsLineOf (drop mark.old.at bytes.now) line }
    ensures mark { IsMark bytes.now mark.new }
    ensures moves { mark.old.at < mark.new.at }
    ensures include { IfOk result (λ o. IfSome o (IsIncludeOf bytes.now)) }
    ensures stops { IfErr result (IsLocalStop bytes.now) }
{
    let parts = parts_of(bytes, *mark, line);
    *mark = parts.end;
    let tokens = match tokens_of(alloc, bytes, parts.rest, parts.end.at) {
        Ok(tokens) => tokens,
        Err(stop) => return Err(stop),
    };
    let word = line.head.word;
    match carry_out(alloc, macros, groups, word, tokens.as_slice(), parts.hash) {
        Ok(include) => Ok(include),
        Err(stop) => Err(stop),
    }
}

// Reads text up to the next directive line, and carries that out. Moves the mark behind it.
fn read_text(
    alloc: Global,
    bytes: &[u8],
    mark: &mut Mark,
    outermost: Option<Spot>,
    groups: &mut Vec<Group>,
    state: &mut State,
) -> Result<Option<Include>, Stop>
    requires small { length bytes.now ≤ 1048576 }
    requires mark { IsMark bytes.now mark.old }
    requires more { mark.old.at < length bytes.now }
    ensures mark { OnOk result (IsMark bytes.now mark.new) }
    ensures moves { OnOk result (mark.old.at < mark.new.at) }
    ensures include { IfOk result (λ o. IfSome o (IsIncludeOf bytes.now)) }
    ensures stops { IfErr result (IsStopIn bytes.now outermost) }
{
    // The law by which the places of tokens are places of the file.
    each_token_has_the_spot_of_its_offset();
    let passage = match passage_at(alloc, bytes, *mark, !groups.is_empty()) {
        Ok(passage) => passage,
        Err(stop) => return Err(stop),
    };
    let origin = origin_of(outermost, mark.spot);
    match state.add_text(alloc, passage.tokens.as_slice(), origin) {
        Ok(()) => {}
        Err(stop) => return Err(stop),
    }
    match passage.line {
        Some(line) => read_line(alloc, bytes, mark, line, groups, &mut state.macros),
        None => {
            *mark = mark.to(bytes, bytes.len());
            Ok(None)
        }
    }
}

// Goes on to the next group line, and carries that out. Moves the mark behind it.
fn skip_text(bytes: &[u8], mark: &mut Mark, groups: &mut Vec<Group>) -> Result<(), Stop>
    requires small { length bytes.now ≤ 1048576 }
    requires mark { IsMark bytes.now mark.old }
    requires more { mark.old.at < length bytes.now }
    ensures mark { OnOk result (IsMark bytes.now mark.new) }
    ensures moves { OnOk result (mark.old.at < mark.new.at) }
    ensures stops { IfErr result (IsDirectiveIn bytes.now) }
{
    let Some(line) = next_group_line(&bytes[mark.at..]) else {
        *mark = mark.to(bytes, bytes.len());
        return Ok(());
    };
    let parts = parts_of(bytes, *mark, line);
    *mark = parts.end;
    match pass_over(groups, line.head.word, parts.hash) {
        Ok(()) => Ok(()),
        Err(stop) => Err(stop),
    }
}

// Reads on from the mark, up to the end of the bytes or the next file that they include.
fn read_from(
    alloc: Global,
    bytes: &[u8],
    mark: &mut Mark,
    outermost: Option<Spot>,
    groups: &mut Vec<Group>,
    state: &mut State,
) -> Result<Option<Include>, Stop>
    requires small { length bytes.now ≤ 1048576 }
    requires mark { IsMark bytes.now mark.old }
    ensures mark { OnOk result (IsMark bytes.now mark.new) }
    ensures include { IfOk result (λ o. IfSome o (IsIncludeOf bytes.now)) }
    ensures stops { IfErr result (IsStopIn bytes.now outermost) }
{
    while mark.at < bytes.len() {
        if is_active(groups) {
            match read_text(alloc, bytes, mark, outermost, groups, state) {
                Ok(Some(include)) => return Ok(Some(include)),
                Ok(None) => {}
                Err(stop) => return Err(stop),
            }
        } else {
            match skip_text(bytes, mark, groups) {
                Ok(()) => {}
                Err(stop) => return Err(stop),
            }
        }
    }
    match end(bytes, groups) {
        Ok(()) => Ok(None),
        Err(stop) => Err(stop),
    }
}

/// Reads a file on, up to its end or the next file that it includes.
pub fn read_on(
    alloc: Global,
    file: &mut OpenFile,
    state: &mut State,
) -> Result<Option<Include>, Stop>
    requires small { length file.old.bytes ≤ 1048576 }
    requires mark { IsMark file.old.bytes file.old.mark }
    ensures name { file.new.name ≡ file.old.name }
    ensures bytes { file.new.bytes ≡ file.old.bytes }
    ensures outermost { file.new.outermost ≡ file.old.outermost }
    ensures mark { OnOk result (IsMark file.old.bytes file.new.mark) }
    ensures include { IfOk result (λ o. IfSome o (IsIncludeOf file.old.bytes)) }
    ensures stops { IfErr result (IsStopIn file.old.bytes file.old.outermost) }
{
    read_from(
        alloc,
        file.bytes.bytes(),
        &mut file.mark,
        file.outermost,
        &mut file.groups,
        state,
    )
}
