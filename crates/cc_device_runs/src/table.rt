// The rows as a table.
ghost use Rattle.std.specs.Prelude.{◌≡◌, ◌++◌, ◌∷◌, ◌+◌, ◌-◌, ◌<◌, ◌^◌, [], IfOk, OnOk, slice_get};
ghost use Rattle.std.specs.Fmt.{decimal};
ghost use Rattle.cc_tables.specs.Records.{IsFresh, record_text, written};
ghost use Rattle.cc_device_runs.specs.Texts as spec;

use crate::names::{component_name, device_name, mark_text, place_text};
use crate::records::{Records, no_records, put, text_of};
use crate::row::{DeviceMarks, DeviceRow, DeviceRows};
use cc_base::Memory;
use cc_device::DeviceMap;
use cc_meaning::TestList;
use cc_program::Program;
use std::alloc::Global;

/// The table of the rows: a header, and a line for each row, numbered from 1, with the first test that exercises it, `-` where
/// there is none.
#[tactic(auto, using(crate::proofs::More::rows_more))]
pub fn devices_csv(
    alloc: Global,
    program: &Program,
    devices: &DeviceMap,
    rows: &DeviceRows,
    marks: &DeviceMarks,
    tests: &TestList,
) -> Result<Vec<u8>, Memory>
    ensures { IfOk result (λ text. text.items
        ≡ spec.table_text program.now devices.now rows.now marks.now tests.now) }
{
    let mut records = no_records(alloc);
    put_seven(
        &mut records,
        "row",
        "from",
        "to",
        "definition",
        "use",
        "device",
        "test",
    )?;
    for i in 0..rows.len() {
        let row = *rows.get(i);
        let device = device_name(devices, row.device);
        let mark = mark_text(tests, mark_at(marks, i as usize));
        put_row(alloc, &mut records, program, i, row, device, mark)?;
    }
    text_of(records)
}

fn mark_at(marks: &DeviceMarks, i: usize) -> Option<Option<u32>>
    ensures { result ≡ slice_get marks.now i }
{
    marks.as_slice().get(i).copied()
}

// Writes the line of a row.
fn put_row(
    alloc: Global,
    records: &mut Records,
    program: &Program,
    i: u64,
    row: DeviceRow,
    device: &str,
    mark: &str,
) -> Result<(), Memory>
    requires fresh { IsFresh records.old }
    requires number { i < 2 ^ 64 - 1 }
    ensures { OnOk result (IsFresh records.new × (written records.new ≡ written records.old
        ++ record_text (decimal (i + 1) ∷ spec.call_fields program.now row device.now mark.now))) }
{
    let number = (i + 1).to_string(alloc)?;
    let definition = place_text(alloc, program, row.definition)?;
    let reader = place_text(alloc, program, row.reader)?;
    put_seven(
        records,
        number.as_str(),
        component_name(program, row.definition),
        component_name(program, row.reader),
        definition.as_str(),
        reader.as_str(),
        device,
        mark,
    )
}

// Writes a record of seven fields.
fn put_seven(
    records: &mut Records,
    a: &str,
    b: &str,
    c: &str,
    d: &str,
    e: &str,
    f: &str,
    g: &str,
) -> Result<(), Memory>
    requires { IsFresh records.old }
    ensures { OnOk result (IsFresh records.new × (written records.new ≡ written records.old
        ++ record_text (a.now ∷ b.now ∷ c.now ∷ d.now ∷ e.now ∷ f.now ∷ g.now ∷ []))) }
{
    put(
        records,
        &[
            a.as_bytes(),
            b.as_bytes(),
            c.as_bytes(),
            d.as_bytes(),
            e.as_bytes(),
            f.as_bytes(),
            g.as_bytes(),
        ],
    )
}
