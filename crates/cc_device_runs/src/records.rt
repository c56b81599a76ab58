// Texts of records.
ghost use Rattle.std.specs.Prelude.{◌≡◌, ◌++◌, [], IfOk, OnOk, map};
ghost use Rattle.cc_tables.specs.Records.{IsFresh, record_text, written};

use cc_base::Memory;
use csv::{Writer, WriterBuilder};
use std::alloc::Global;

/// What records are written to.
pub type Records = Writer<Vec<u8>>;

/// A text without records.
pub fn no_records(alloc: Global) -> Records
    ensures fresh { IsFresh result }
    ensures empty { written result ≡ [] }
{
    WriterBuilder::new().from_writer(Vec::new(alloc))
}

/// Writes one record more.
pub fn put(records: &mut Records, fields: &[&[u8]]) -> Result<(), Memory>
    requires { IsFresh records.old }
    ensures { OnOk result (IsFresh records.new
        × (written records.new ≡ written records.old ++ record_text (map (λ f. f.now) fields.now))) }
{
    match records.write_fields(fields) {
        Ok(()) => Ok(()),
        Err(_) => Err(Memory),
    }
}

/// The text.
pub fn text_of(records: Records) -> Result<Vec<u8>, Memory>
    ensures { IfOk result (λ text. text.items ≡ written records) }
{
    match records.into_inner() {
        Ok(text) => Ok(text),
        Err(_) => Err(Memory),
    }
}
