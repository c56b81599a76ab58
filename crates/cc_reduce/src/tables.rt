// What is kept, and the order, as tables.
ghost use Rattle.std.specs.Prelude.{◌≡◌, ◌++◌, ◌∷◌, ◌+◌, ◌-◌, ◌<◌, ◌≤◌, ◌^◌, [], IfOk, OnOk};
ghost use Rattle.std.specs.Fmt.{decimal};
ghost use Rattle.cc_tables.specs.Records.{IsFresh, record_text, written};
ghost use Rattle.cc_score.specs.Counts as score;
ghost use Rattle.cc_reduce.specs.Rows.{at};
ghost use Rattle.cc_reduce.specs.Texts as spec;

use crate::covering::{cover, rows_of};
use crate::ordering::TestOrder;
use crate::records::{Records, no_records, put, text_of};
use crate::reducing::TestMarks;
use cc_base::Memory;
use cc_meaning::{Scores, TestList};
use std::alloc::Global;

/// What is kept: a header, for each test its name, whether it is kept and how many rows its run exercises, and then the
/// line that says how many are kept. A test without a mark is none that is kept.
#[tactic(auto, using(crate::proofs::More::kept_more, crate::proofs::More::kept_count_more))]
pub fn reduce_csv(
    alloc: Global,
    scores: &Scores,
    marks: &TestMarks,
    tests: &TestList,
) -> Result<Vec<u8>, Memory>
    ensures { IfOk result (λ text. text.items ≡ spec.reduce_text scores.now marks.now tests.now) }
{
    let mut records = no_records(alloc);
    put_three(&mut records, "test", "kept", "rows")?;
    let mut kept: usize = 0;
    for test in 0..tests.len() as usize {
        let is_kept = is_marked(marks, test);
        let rows = rows_of(scores, test).len();
        put_mark(alloc, &mut records, name_of(tests, test), is_kept, rows)?;
        kept += one_if(is_kept);
    }
    let mut text = text_of(records)?;
    let count = tests.len();
    let line = format!(in alloc; "kept {kept} of {count}\n")?;
    text.extend_from_slice(line.as_bytes())?;
    Ok(text)
}

/// The order: a header, and for each place, from 1, the test's name, how many rows it adds to those of the earlier places,
/// and how many rows there are with them. A row is a number below how many marks there are.
#[tactic(auto, using(crate::proofs::More::places_more))]
pub fn order_csv(
    alloc: Global,
    scores: &Scores,
    order: &TestOrder,
    tests: &TestList,
) -> Result<Vec<u8>, Memory>
    ensures { IfOk result (λ text. text.items ≡ spec.order_text scores.now order.now tests.now) }
{
    let mut covered = vec![in alloc; false; scores.marks.len() as usize]?;
    let mut records = no_records(alloc);
    put_four(&mut records, "place", "test", "new", "total")?;
    let mut total: usize = 0;
    for place in 0..order.len() {
        let test = *order.get(place) as usize;
        let added = cover(&mut covered, rows_of(scores, test));
        total += added;
        put_place(
            alloc,
            &mut records,
            place,
            name_of(tests, test),
            added,
            total,
        )?;
    }
    text_of(records)
}

// The name of a test, if there is one of this number.
fn name_of(tests: &TestList, number: usize) -> &str
    ensures { result.now ≡ spec.name_of tests.now number }
{
    match tests.as_slice().get(number) {
        Some(test) => test.name.as_str(),
        None => "",
    }
}

// Whether a test is kept.
fn is_marked(marks: &TestMarks, test: usize) -> bool
    ensures { result ≡ at marks.now test }
{
    match marks.as_slice().get(test) {
        Some(mark) => *mark,
        None => false,
    }
}

fn yes_or_no(is_kept: bool) -> &'static str
    ensures { result.now ≡ spec.yes_or_no is_kept }
{
    if is_kept { "yes" } else { "no" }
}

fn one_if(counts: bool) -> usize
    ensures value { result ≡ score.one_if counts }
    ensures bound { result ≤ 1 }
{
    if counts { 1 } else { 0 }
}

// Writes the record of a test: its name, whether it is kept, and how many rows it has.
fn put_mark(
    alloc: Global,
    records: &mut Records,
    name: &str,
    is_kept: bool,
    rows: usize,
) -> Result<(), Memory>
    requires { IsFresh records.old }
    ensures { OnOk result (IsFresh records.new × (written records.new ≡ written records.old
        ++ record_text (name.now ∷ spec.yes_or_no is_kept ∷ decimal rows ∷ []))) }
{
    let rows = rows.to_string(alloc)?;
    put_three(records, name, yes_or_no(is_kept), rows.as_str())
}

// Writes the record of a place, which is printed from 1: the test's name, how many rows it adds, and how many there are.
fn put_place(
    alloc: Global,
    records: &mut Records,
    place: u64,
    name: &str,
    added: usize,
    total: usize,
) -> Result<(), Memory>
    requires fresh { IsFresh records.old }
    requires within { place < 2 ^ 64 - 1 }
    ensures { OnOk result (IsFresh records.new × (written records.new ≡ written records.old
        ++ record_text (decimal (place + 1) ∷ name.now ∷ decimal added ∷ decimal total ∷ []))) }
{
    let place = (place + 1).to_string(alloc)?;
    let added = added.to_string(alloc)?;
    let total = total.to_string(alloc)?;
    put_four(
        records,
        place.as_str(),
        name,
        added.as_str(),
        total.as_str(),
    )
}

// Writes a record of three fields.
fn put_three(records: &mut Records, a: &str, b: &str, c: &str) -> Result<(), Memory>
    requires { IsFresh records.old }
    ensures { OnOk result (IsFresh records.new × (written records.new ≡ written records.old
        ++ record_text (a.now ∷ b.now ∷ c.now ∷ []))) }
{
    put(records, &[a.as_bytes(), b.as_bytes(), c.as_bytes()])
}

// Writes a record of four fields.
fn put_four(records: &mut Records, a: &str, b: &str, c: &str, d: &str) -> Result<(), Memory>
    requires { IsFresh records.old }
    ensures { OnOk result (IsFresh records.new × (written records.new ≡ written records.old
        ++ record_text (a.now ∷ b.now ∷ c.now ∷ d.now ∷ []))) }
{
    put(
        records,
        &[a.as_bytes(), b.as_bytes(), c.as_bytes(), d.as_bytes()],
    )
}
