// What each test exercises, as a table.
ghost use Rattle.std.specs.Prelude.{◌≡◌, ◌++◌, ◌∷◌, [], IfOk, OnOk, Some, slice_get};
ghost use Rattle.std.specs.Option.{option_copied};
ghost use Rattle.cc_tables.specs.Records.{IsFresh, record_text, written};
ghost use Rattle.cc_tables.specs.TestTable as spec;

use crate::ends::end_text;
use crate::records::{Records, no_records, put, text_of};
use cc_base::Memory;
use cc_meaning::{End, Listing, Scores, Test, TestList};
use cc_program::Program;
use std::alloc::Global;

/// The table of the tests: a header, and for each test, each of its requirements and each row that its run exercises a
/// record with the end of the run; `-` stands where a test has no requirement, and where its run exercises no row.
#[tactic(auto, using(crate::proofs::More::tests_more))]
pub fn tests_csv(
    alloc: Global,
    program: &Program,
    _listing: &Listing,
    scores: &Scores,
    tests: &TestList,
) -> Result<Vec<u8>, Memory>
    ensures { IfOk result (λ text. text.items ≡ spec.tests_text program.now scores.now tests.now) }
{
    let mut records = no_records(alloc);
    put_record(&mut records, "test", "requirement", "row", "end")?;
    for i in 0..tests.len() {
        put_test(
            alloc,
            &mut records,
            program,
            scores,
            i as usize,
            tests.get(i),
        )?;
    }
    text_of(records)
}

fn put_record(
    records: &mut Records,
    test: &str,
    requirement: &str,
    row: &str,
    ending: &str,
) -> Result<(), Memory>
    requires { IsFresh records.old }
    ensures { OnOk result (IsFresh records.new × (written records.new ≡ written records.old
        ++ record_text (test.now ∷ requirement.now ∷ row.now ∷ ending.now ∷ []))) }
{
    put(
        records,
        &[
            test.as_bytes(),
            requirement.as_bytes(),
            row.as_bytes(),
            ending.as_bytes(),
        ],
    )
}

// The rows that a test's run exercises, by number.
fn rows_of(scores: &Scores, test: usize) -> &[u32]
    ensures { result.now ≡ spec.rows_of scores.now test }
{
    match scores.exercised.as_slice().get(test) {
        Some(rows) => rows.as_slice(),
        None => &[],
    }
}

// How a test's run ends, if there is one.
fn ending_of(scores: &Scores, test: usize) -> Option<&End>
    ensures { option_copied result ≡ slice_get scores.now.ends test }
{
    scores.ends.as_slice().get(test)
}

// The records of a test.
#[tactic(auto, using(crate::proofs::More::requirements_more))]
fn put_test(
    alloc: Global,
    records: &mut Records,
    program: &Program,
    scores: &Scores,
    number: usize,
    test: &Test,
) -> Result<(), Memory>
    requires { IsFresh records.old }
    ensures { OnOk result (IsFresh records.new × (written records.new ≡ written records.old
        ++ spec.test_text program.now scores.now number test.now)) }
{
    let ending = end_text(alloc, program, ending_of(scores, number))?;
    let rows = rows_of(scores, number);
    let name = test.name.as_str();
    if test.requirements.len() == 0 {
        return put_rows(alloc, records, name, "-", rows, ending.as_str());
    }
    for i in 0..test.requirements.len() {
        let requirement = test.requirements.get(i);
        put_rows(
            alloc,
            records,
            name,
            requirement.as_str(),
            rows,
            ending.as_str(),
        )?;
    }
    Ok(())
}

// The records of a test and a requirement.
#[tactic(auto, using(crate::proofs::More::numbered_more))]
fn put_rows(
    alloc: Global,
    records: &mut Records,
    test: &str,
    requirement: &str,
    rows: &[u32],
    ending: &str,
) -> Result<(), Memory>
    requires { IsFresh records.old }
    ensures { OnOk result (IsFresh records.new × (written records.new ≡ written records.old
        ++ spec.rows_text test.now requirement.now rows.now ending.now)) }
{
    if rows.len() == 0 {
        return put_record(records, test, requirement, "-", ending);
    }
    for row in rows {
        put_numbered(alloc, records, test, requirement, *row, ending)?;
    }
    Ok(())
}

// The record of a row, which is printed from 1.
fn put_numbered(
    alloc: Global,
    records: &mut Records,
    test: &str,
    requirement: &str,
    row: u32,
    ending: &str,
) -> Result<(), Memory>
    requires { IsFresh records.old }
    ensures { OnOk result (IsFresh records.new × (written records.new ≡ written records.old
        ++ spec.numbered_text test.now requirement.now ending.now (Some row))) }
{
    let number = (u64::from(row) + 1).to_string(alloc)?;
    put_record(records, test, requirement, number.as_str(), ending)
}
