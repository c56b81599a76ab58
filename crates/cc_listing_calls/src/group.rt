// Rows by number.
ghost use Rattle.std.specs.Prelude.{◌≡◌, ◌<◌, ℕ, map, Contains, IfOk};
ghost use Rattle.cc_listing_calls.specs.Groups as spec;

use crate::number::numbered_items;
use cc_base::{List, Memory};
use cc_lanes::table_of;
use cc_listed::{Argument, Formal, Returned};
use std::alloc::{AllocError, Global};

// More than the number of each row that a pair has.
fn rows_for(pairs: &[(u32, u32)]) -> usize
    ensures { (p : ℕ × ℕ) → Contains pairs.now p → p.0 < result }
{
    let mut count: usize = 0;
    for pair in pairs {
        count = count.max(pair.0 as usize + 1);
    }
    count
}

/// Rows, each with the items that the pairs have with its number.
pub fn grouped(alloc: Global, pairs: &[(u32, u32)]) -> Result<Vec<List<u32>>, Memory>
    ensures { IfOk result (λ rows. spec.AreGrouped rows.items pairs.now) }
{
    table_of(alloc, rows_for(pairs), pairs)
}

// Rows, each with the numbers of the places where its number stands.
fn indexed(alloc: Global, keys: &[Option<u32>]) -> Result<Vec<List<u32>>, Memory>
    ensures { IfOk result (λ rows. spec.AreIndexed keys.now rows.items) }
{
    let pairs = numbered_items(alloc, keys)?;
    grouped(alloc, pairs.as_slice())
}

fn site_keys(alloc: Global, arguments: &[Argument]) -> Result<Vec<Option<u32>>, AllocError>
    ensures { IfOk result (λ out. out.items ≡ map spec.site_key arguments.now) }
{
    arguments
        .iter()
        .map(|argument| Some(argument.site))
        .collect(alloc)
}

/// For each node of a call the numbers of its arguments.
pub fn arguments_by_site(alloc: Global, arguments: &[Argument]) -> Result<Vec<List<u32>>, Memory>
    ensures { IfOk result (λ rows. spec.AreBy spec.site_of arguments.now rows.items) }
{
    let keys = site_keys(alloc, arguments)?;
    indexed(alloc, keys.as_slice())
}

fn taker_keys(alloc: Global, formals: &[Formal]) -> Result<Vec<Option<u32>>, AllocError>
    ensures { IfOk result (λ out. out.items ≡ map spec.taker_key formals.now) }
{
    formals
        .iter()
        .map(|formal| Some(formal.callee))
        .collect(alloc)
}

/// For each node of a function the numbers of its formals.
pub fn formals_by_callee(alloc: Global, formals: &[Formal]) -> Result<Vec<List<u32>>, Memory>
    ensures { IfOk result (λ rows. spec.AreBy spec.taker_of formals.now rows.items) }
{
    let keys = taker_keys(alloc, formals)?;
    indexed(alloc, keys.as_slice())
}

fn giver_keys(alloc: Global, returns: &[Returned]) -> Result<Vec<Option<u32>>, AllocError>
    ensures { IfOk result (λ out. out.items ≡ map spec.giver_key returns.now) }
{
    returns
        .iter()
        .map(|returned| Some(returned.callee))
        .collect(alloc)
}

/// For each node of a function the numbers of its returns.
pub fn returns_by_callee(alloc: Global, returns: &[Returned]) -> Result<Vec<List<u32>>, Memory>
    ensures { IfOk result (λ rows. spec.AreBy spec.giver_of returns.now rows.items) }
{
    let keys = giver_keys(alloc, returns)?;
    indexed(alloc, keys.as_slice())
}
