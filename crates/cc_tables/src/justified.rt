// The rows that justifications speak of.
ghost use Rattle.std.specs.Prelude.{◌≡◌, ◌++◌, ◌∷◌, [], ℕ, None, Some, IfOk, IfErr, OnOk, bytes_eq, length, option_map};
ghost use Rattle.cc_tables.specs.declared.justified.JustifyFault.TheVariants as fault;
ghost use Rattle.cc_program.specs.Programs.{number_of};
ghost use Rattle.cc_tables.specs.Records.{IsFresh, record_text, written};
ghost use Rattle.cc_tables.specs.Rows as rows;
ghost use Rattle.cc_tables.specs.Justifying as spec;

use crate::records::{Records, no_records, put, text_of};
use crate::rows::row_fields;
use cc_base::{Bytes, List, Memory as NoMemory, Text};
use cc_meaning::{Coupling, Justified, JustifiedList, Listing, RowReason, RowReasons};
use cc_program::Program;
use std::alloc::{AllocError, Global};

/// Why justifications could not be tied to rows.
#[derive(Clone, Copy, Debug, PartialEq, Eq)]
pub enum JustifyFault {
    /// The line of this justification, counted from 0, is no row's text. It is the first such one.
    NoSuchRow { index: u32 },
    /// Memory was wanting. No clause says when.
    Memory,
}

impl From<NoMemory> for JustifyFault {
    ghost from_gives = { λ _ e. e ≡ fault.Memory };

    fn from(_: NoMemory) -> JustifyFault {
        JustifyFault::Memory
    }
}

impl From<AllocError> for JustifyFault {
    ghost from_gives = { λ _ e. e ≡ fault.Memory };

    fn from(_: AllocError) -> JustifyFault {
        JustifyFault::Memory
    }
}

/// For each row the first justification whose line is the row's text: its line of the listing after the number and the
/// comma. Each justification must have a row.
pub fn justify(
    alloc: Global,
    program: &Program,
    listing: &Listing,
    list: &JustifiedList,
) -> Result<RowReasons, JustifyFault>
    ensures reasons { IfOk result (λ reasons. reasons ≡ spec.reasons program.now listing.now list.now) }
    ensures known { IfOk result (λ _. spec.first_unknown program.now listing.now list.now ≡ None) }
    ensures refused { IfErr result (λ e. (index : ℕ) → e ≡ fault.NoSuchRow index
        → option_map number_of (spec.first_unknown program.now listing.now list.now) ≡ Some index) }
{
    let texts = texts_of(alloc, program, listing)?;
    let lines = lines_of(alloc, list)?;
    if let Some(index) = unknown_in(lines.as_slice(), texts.as_slice()) {
        return Err(JustifyFault::NoSuchRow {
            index: number_of(index),
        });
    }
    let reasons = reasons_of(alloc, &texts, &lines, list)?;
    Ok(reasons)
}

// A count as a number of 32 bits: 2^32 - 1 stands for that many or more.
fn number_of(count: usize) -> u32
    ensures { result ≡ number_of count }
{
    if count < u32::MAX as usize {
        count as u32
    } else {
        u32::MAX
    }
}

// Whether the texts are one text.
fn is_same(a: &Bytes, b: &Bytes) -> bool
    ensures { result ≡ bytes_eq a.now b.now }
{
    a.bytes() == b.bytes()
}

// The place of the first of these texts that is this one.
fn place_in(texts: &[Bytes], text: &Bytes) -> Option<usize>
    ensures { result ≡ spec.place_from 0 texts.now text.now }
{
    for (i, one) in texts.iter().enumerate() {
        if is_same(one, text) {
            return Some(i);
        }
    }
    None
}

// The place of the first of these lines that is none of the texts.
fn unknown_in(lines: &[Bytes], texts: &[Bytes]) -> Option<usize>
    ensures { result ≡ spec.unknown_from 0 lines.now texts.now }
{
    for (i, line) in lines.iter().enumerate() {
        if place_in(texts, line).is_none() {
            return Some(i);
        }
    }
    None
}

// The line of a justification, with a line feed behind.
fn line_of(alloc: Global, justified: &Justified) -> Result<Bytes, NoMemory>
    ensures { IfOk result (λ line. line ≡ spec.line_of justified.now) }
{
    let mut line = justified.line.as_str().as_bytes().to_vec(alloc)?;
    line.push(b'\n')?;
    Ok(Bytes::new(line))
}

// The lines of the justifications, each with a line feed behind.
#[tactic(auto, using(crate::proofs::More::lines_more))]
fn lines_of(alloc: Global, list: &JustifiedList) -> Result<List<Bytes>, NoMemory>
    ensures { IfOk result (λ lines. lines ≡ spec.lines_to list.now (length list.now)) }
{
    let mut lines = List::new(alloc);
    for i in 0..list.len() {
        lines.push(line_of(alloc, list.get(i))?)?;
    }
    Ok(lines)
}

// The reason of a row with this text.
fn reason_of(
    alloc: Global,
    text: &Bytes,
    lines: &List<Bytes>,
    list: &JustifiedList,
) -> Result<Option<RowReason>, NoMemory>
    ensures { IfOk result (λ reason. reason ≡ spec.reason_of lines.now list.now text.now) }
{
    let Some(place) = place_in(lines.as_slice(), text) else {
        return Ok(None);
    };
    let Some(justified) = list.as_slice().get(place) else {
        return Ok(None);
    };
    Ok(Some(RowReason {
        index: number_of(place),
        reason: Text::new(String::from_str(alloc, justified.reason.as_str())?),
    }))
}

// The reasons of rows with these texts.
#[tactic(auto, using(crate::proofs::More::reasons_more))]
fn reasons_of(
    alloc: Global,
    texts: &List<Bytes>,
    lines: &List<Bytes>,
    list: &JustifiedList,
) -> Result<RowReasons, NoMemory>
    ensures { IfOk result (λ reasons. reasons
        ≡ spec.reasons_to lines.now list.now texts.now (length texts.now)) }
{
    let mut reasons = List::new(alloc);
    for i in 0..texts.len() {
        reasons.push(reason_of(alloc, texts.get(i), lines, list)?)?;
    }
    Ok(reasons)
}

// The record of a row without its number.
fn text_of_row(alloc: Global, program: &Program, row: &Coupling) -> Result<Bytes, NoMemory>
    ensures { IfOk result (λ text. text ≡ record_text (rows.row_fields program.now row.now)) }
{
    let fields = row_fields(alloc, program, row)?;
    let mut records = no_records(alloc);
    put_fields(
        &mut records,
        fields.kind,
        fields.from,
        fields.to,
        fields.definition.as_str(),
        fields.used.as_str(),
        fields.name.as_str(),
    )?;
    Ok(Bytes::new(text_of(records)?))
}

fn put_fields(
    records: &mut Records,
    kind: &str,
    from: &str,
    to: &str,
    definition: &str,
    used: &str,
    name: &str,
) -> Result<(), NoMemory>
    requires { IsFresh records.old }
    ensures { OnOk result (IsFresh records.new × (written records.new ≡ written records.old
        ++ record_text (kind.now ∷ from.now ∷ to.now ∷ definition.now ∷ used.now ∷ name.now ∷ []))) }
{
    put(
        records,
        &[
            kind.as_bytes(),
            from.as_bytes(),
            to.as_bytes(),
            definition.as_bytes(),
            used.as_bytes(),
            name.as_bytes(),
        ],
    )
}

// The records of the rows without their numbers.
#[tactic(auto, using(crate::proofs::More::texts_more))]
fn texts_of(alloc: Global, program: &Program, listing: &Listing) -> Result<List<Bytes>, NoMemory>
    ensures { IfOk result (λ texts. texts ≡ spec.texts_to program.now listing.now (length listing.now)) }
{
    let mut texts = List::new(alloc);
    for i in 0..listing.len() {
        texts.push(text_of_row(alloc, program, listing.row(i))?)?;
    }
    Ok(texts)
}
