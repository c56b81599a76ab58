// The listing with marks as a table.
ghost use Rattle.std.specs.Prelude.{◌≡◌, ◌++◌, ◌∷◌, [], ◌<◌, ◌-◌, ◌^◌, ◌+◌, IfOk, OnOk, slice_get};
ghost use Rattle.std.specs.Option.{option_copied};
ghost use Rattle.std.specs.Fmt.{decimal};
ghost use Rattle.cc_tables.specs.Records.{IsFresh, record_text, written};
ghost use Rattle.cc_tables.specs.Rows as rows;
ghost use Rattle.cc_tables.specs.Tables as spec;

use crate::records::{Records, no_records, put, text_of};
use crate::rows::row_fields;
use cc_base::Memory;
use cc_meaning::{Coupling, Listing, RowReasons, Scores, TestList};
use cc_program::Program;
use std::alloc::Global;

/// The table of the listing with a column for the first test of each row, `-` where there is none. Where `reasons` is
/// given, a ninth column has the reason of each row, `-` where there is none.
#[tactic(auto, using(crate::proofs::More::scored_more))]
pub fn score_csv(
    alloc: Global,
    program: &Program,
    listing: &Listing,
    scores: &Scores,
    tests: &TestList,
    reasons: Option<&RowReasons>,
) -> Result<Vec<u8>, Memory>
    ensures { IfOk result (λ text. text.items
        ≡ spec.score_text program.now listing.now scores.now tests.now (option_copied reasons.entry)) }
{
    let mut records = no_records(alloc);
    put_header(&mut records, reasons.is_some())?;
    for i in 0..listing.len() {
        let mark = mark_text(tests, scores, i);
        let reason = reason_at(reasons, i);
        put_row(
            alloc,
            &mut records,
            program,
            i,
            listing.row(i),
            mark,
            reason,
        )?;
    }
    text_of(records)
}

fn put_header(records: &mut Records, justifies: bool) -> Result<(), Memory>
    requires { IsFresh records.old }
    ensures { OnOk result (IsFresh records.new
        × (written records.new ≡ written records.old ++ record_text (spec.score_header justifies))) }
{
    if justifies {
        put(
            records,
            &[
                "row".as_bytes(),
                "kind".as_bytes(),
                "from".as_bytes(),
                "to".as_bytes(),
                "definition".as_bytes(),
                "use".as_bytes(),
                "name".as_bytes(),
                "test".as_bytes(),
                "reason".as_bytes(),
            ],
        )
    } else {
        put(
            records,
            &[
                "row".as_bytes(),
                "kind".as_bytes(),
                "from".as_bytes(),
                "to".as_bytes(),
                "definition".as_bytes(),
                "use".as_bytes(),
                "name".as_bytes(),
                "test".as_bytes(),
            ],
        )
    }
}

// One row more, with its mark and, where rows can be justified, its reason.
fn put_row(
    alloc: Global,
    records: &mut Records,
    program: &Program,
    i: u32,
    row: &Coupling,
    mark: &str,
    reason: Option<&str>,
) -> Result<(), Memory>
    requires fresh { IsFresh records.old }
    requires number { i < 2 ^ 32 - 1 }
    ensures { OnOk result (IsFresh records.new × (written records.new ≡ written records.old
        ++ record_text (decimal (i + 1) ∷ spec.scored_fields program.now row.now mark.now (option_copied reason.entry)))) }
{
    let fields = row_fields(alloc, program, row)?;
    let number = (i + 1).to_string(alloc)?;
    let number = number.as_str();
    let definition = fields.definition.as_str();
    let used = fields.used.as_str();
    let name = fields.name.as_str();
    match reason {
        None => put_marked(
            records,
            number,
            fields.kind,
            fields.from,
            fields.to,
            definition,
            used,
            name,
            mark,
        ),
        Some(reason) => put_reasoned(
            records,
            number,
            fields.kind,
            fields.from,
            fields.to,
            definition,
            used,
            name,
            mark,
            reason,
        ),
    }
}

fn put_marked(
    records: &mut Records,
    number: &str,
    kind: &str,
    from: &str,
    to: &str,
    definition: &str,
    used: &str,
    name: &str,
    mark: &str,
) -> Result<(), Memory>
    requires { IsFresh records.old }
    ensures { OnOk result (IsFresh records.new × (written records.new ≡ written records.old
        ++ record_text (number.now ∷ kind.now ∷ from.now ∷ to.now ∷ definition.now ∷ used.now ∷ name.now ∷ mark.now ∷ []))) }
{
    put(
        records,
        &[
            number.as_bytes(),
            kind.as_bytes(),
            from.as_bytes(),
            to.as_bytes(),
            definition.as_bytes(),
            used.as_bytes(),
            name.as_bytes(),
            mark.as_bytes(),
        ],
    )
}

fn put_reasoned(
    records: &mut Records,
    number: &str,
    kind: &str,
    from: &str,
    to: &str,
    definition: &str,
    used: &str,
    name: &str,
    mark: &str,
    reason: &str,
) -> Result<(), Memory>
    requires { IsFresh records.old }
    ensures { OnOk result (IsFresh records.new × (written records.new ≡ written records.old ++ record_text
        (number.now ∷ kind.now ∷ from.now ∷ to.now ∷ definition.now ∷ used.now ∷ name.now ∷ mark.now ∷ reason.now ∷ []))) }
{
    put(
        records,
        &[
            number.as_bytes(),
            kind.as_bytes(),
            from.as_bytes(),
            to.as_bytes(),
            definition.as_bytes(),
            used.as_bytes(),
            name.as_bytes(),
            mark.as_bytes(),
            reason.as_bytes(),
        ],
    )
}

// The name of the test that marks a row, or `-`.
fn mark_text<'t>(tests: &'t TestList, scores: &Scores, row: u32) -> &'t str
    ensures { result.now ≡ spec.mark_text tests.now (slice_get scores.now.marks row) }
{
    match scores.marks.as_slice().get(row as usize) {
        Some(Some(test)) => match tests.as_slice().get(*test as usize) {
            Some(test) => test.name.as_str(),
            None => "-",
        },
        _ => "-",
    }
}

// The reason of a row, or `-`; none where rows cannot be justified.
fn reason_at<'r>(reasons: Option<&'r RowReasons>, row: u32) -> Option<&'r str>
    ensures { option_copied result ≡ spec.reason_at (option_copied reasons.entry) row }
{
    match reasons {
        None => None,
        Some(reasons) => Some(reason_text(reasons, row)),
    }
}

fn reason_text(reasons: &RowReasons, row: u32) -> &str
    ensures { result.now ≡ spec.reason_text (slice_get reasons.now row) }
{
    match reasons.as_slice().get(row as usize) {
        Some(Some(reason)) => reason.reason.as_str(),
        _ => "-",
    }
}
