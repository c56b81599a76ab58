// The listing as a table.
ghost use Rattle.std.specs.Prelude.{◌≡◌, ◌++◌, ◌∷◌, ◌<◌, ◌-◌, ◌^◌, ◌+◌, [], IfOk, OnOk};
ghost use Rattle.cc_tables.specs.Records.{IsFresh, record_text, written};
ghost use Rattle.cc_tables.specs.Rows as rows;
ghost use Rattle.cc_tables.specs.Tables as spec;
ghost use Rattle.std.specs.Fmt.{decimal};

use crate::records::{Records, no_records, put, text_of};
use crate::rows::row_fields;
use cc_base::Memory;
use cc_meaning::{Coupling, Listing};
use cc_program::Program;
use std::alloc::Global;

/// The table of the listing: a header, and a row for each coupling, numbered from 1.
#[tactic(auto, using(crate::proofs::More::rows_more))]
pub fn list_csv(alloc: Global, program: &Program, listing: &Listing) -> Result<Vec<u8>, Memory>
    ensures { IfOk result (λ text. text.items ≡ spec.list_text program.now listing.now) }
{
    let mut records = no_records(alloc);
    put_header(&mut records)?;
    for i in 0..listing.len() {
        put_row(alloc, &mut records, program, i, listing.row(i))?;
    }
    text_of(records)
}

fn put_header(records: &mut Records) -> Result<(), Memory>
    requires { IsFresh records.old }
    ensures { OnOk result (IsFresh records.new
        × (written records.new ≡ written records.old ++ record_text spec.list_header)) }
{
    put(
        records,
        &[
            "row".as_bytes(),
            "kind".as_bytes(),
            "from".as_bytes(),
            "to".as_bytes(),
            "definition".as_bytes(),
            "use".as_bytes(),
            "name".as_bytes(),
        ],
    )
}

fn put_row(
    alloc: Global,
    records: &mut Records,
    program: &Program,
    i: u32,
    row: &Coupling,
) -> Result<(), Memory>
    requires fresh { IsFresh records.old }
    requires number { i < 2 ^ 32 - 1 }
    ensures { OnOk result (IsFresh records.new × (written records.new
        ≡ written records.old ++ record_text (decimal (i + 1) ∷ rows.row_fields program.now row.now))) }
{
    let fields = row_fields(alloc, program, row)?;
    let number = (i + 1).to_string(alloc)?;
    put_fields(
        records,
        number.as_str(),
        fields.kind,
        fields.from,
        fields.to,
        fields.definition.as_str(),
        fields.used.as_str(),
        fields.name.as_str(),
    )
}

fn put_fields(
    records: &mut Records,
    number: &str,
    kind: &str,
    from: &str,
    to: &str,
    definition: &str,
    used: &str,
    name: &str,
) -> Result<(), Memory>
    requires { IsFresh records.old }
    ensures { OnOk result (IsFresh records.new × (written records.new ≡ written records.old
        ++ record_text (number.now ∷ kind.now ∷ from.now ∷ to.now ∷ definition.now ∷ used.now ∷ name.now ∷ []))) }
{
    put(
        records,
        &[
            number.as_bytes(),
            kind.as_bytes(),
            from.as_bytes(),
            to.as_bytes(),
            definition.as_bytes(),
            used.as_bytes(),
            name.as_bytes(),
        ],
    )
}
