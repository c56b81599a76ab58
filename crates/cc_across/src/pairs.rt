// Pairs of numbers, and tables of them.
ghost use Rattle.std.specs.Prelude.{◌≡◌, ℕ, [], ◌<◌, IfOk, OnOk, length, replicate};
ghost use Rattle.cc_flows.specs.Sweeping.{StaysWithin};
ghost use Rattle.cc_graph.specs.Linking.{row_of};
ghost use Rattle.cc_graph.specs.Order.{IsAscending};
ghost use Rattle.cc_across.specs.Pairs as spec;

use cc_base::{List, Memory};
use cc_rows::arrange;
use std::alloc::Global;

fn join_at(pairs: &mut Vec<(u32, u32)>, count: u32, p: u32, q: u32) -> Result<(), Memory>
    ensures { OnOk result (pairs.new.items ≡ spec.joined_at count p q pairs.old.items) }
{
    if p < count && q < count {
        pairs.push((p, q))?;
    }
    Ok(())
}

/// Adds the pair of two numbers, if both are there and below a number.
pub(crate) fn join(
    pairs: &mut Vec<(u32, u32)>,
    count: u32,
    from: Option<u32>,
    to: Option<u32>,
) -> Result<(), Memory>
    ensures { OnOk result (pairs.new.items ≡ spec.joined count from to pairs.old.items) }
{
    match (from, to) {
        (Some(p), Some(q)) => join_at(pairs, count, p, q),
        _ => Ok(()),
    }
}

// So many empty rows.
fn empty_rows(alloc: Global, count: u32) -> Result<Vec<List<u32>>, Memory>
    ensures { IfOk result (λ rows. rows.items ≡ replicate count []) }
{
    let mut rows = Vec::new(alloc);
    for _row in 0..count {
        rows.push(List::new(alloc))?;
    }
    Ok(rows)
}

// Adds an item to a row, if there is one of this number.
fn put(rows: &mut Vec<List<u32>>, row: u32, item: u32) -> Result<(), Memory>
    ensures { OnOk result (rows.new.items ≡ spec.put row item rows.old.items) }
{
    let at = row as usize;
    if at < rows.len() {
        rows[at].push(item)?;
    }
    Ok(())
}

// The rows of these pairs.
fn rows_of(alloc: Global, count: u32, pairs: &[(u32, u32)]) -> Result<Vec<List<u32>>, Memory>
    ensures { IfOk result (λ rows. rows.items ≡ spec.tabled pairs.now (replicate count [])) }
{
    let mut rows = empty_rows(alloc, count)?;
    for pair in pairs {
        put(&mut rows, pair.0, pair.1)?;
    }
    Ok(rows)
}

/// Rows, of which each has the second numbers of the pairs whose first number is its own, in ascending order, each once.
pub(crate) fn table_of(
    alloc: Global,
    count: u32,
    pairs: Vec<(u32, u32)>,
) -> Result<Vec<List<u32>>, Memory>
    ensures long { IfOk result (λ rows. length rows.items ≡ count) }
    ensures exact { IfOk result (λ rows. spec.AreRows rows.items count pairs.items) }
    ensures ascends { IfOk result (λ rows. (r : ℕ) → IsAscending (row_of rows.items r)) }
{
    let mut pairs = pairs;
    arrange(&mut pairs);
    let rows = rows_of(alloc, count, pairs.as_slice())?;
    Ok(rows)
}
