// Rows of pairs.
ghost use Rattle.std.specs.Prelude.{◌≡◌, [], IfOk, OnOk, length, replicate};
ghost use Rattle.cc_lanes.specs.Rows as spec;
ghost use Rattle.cc_lanes.specs.Rows.{Holds};

use cc_base::{List, Memory};
use std::alloc::Global;

// So many empty rows.
fn empty_rows(alloc: Global, count: usize) -> Result<Vec<List<u32>>, Memory>
    ensures { IfOk result (λ rows. rows.items ≡ replicate count []) }
{
    let mut rows = Vec::new(alloc);
    for _row in 0..count {
        rows.push(List::new(alloc))?;
    }
    Ok(rows)
}

// Adds an item to a row, if there is one of this number.
fn put(rows: &mut Vec<List<u32>>, row: u32, item: u32) -> Result<(), Memory>
    ensures { OnOk result (rows.new.items ≡ spec.put row item rows.old.items) }
{
    let at = row as usize;
    if at < rows.len() {
        rows[at].push(item)?;
    }
    Ok(())
}

/// Rows, of which each has the items that the pairs have with its number.
pub fn table_of(alloc: Global, count: usize, pairs: &[(u32, u32)]) -> Result<Vec<List<u32>>, Memory>
    ensures long { IfOk result (λ rows. length rows.items ≡ count) }
    ensures exact { IfOk result (λ rows. Holds rows.items pairs.now) }
{
    let mut rows = empty_rows(alloc, count)?;
    for pair in pairs {
        put(&mut rows, pair.0, pair.1)?;
    }
    Ok(rows)
}
