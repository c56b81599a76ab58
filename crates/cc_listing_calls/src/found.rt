// Rows of what is found.
ghost use Rattle.std.specs.Prelude.{◌≡◌, ◌<◌, ℕ, map, Contains, IfOk, length};
ghost use Rattle.cc_flows.specs.Sweeping.{StaysWithin};
ghost use Rattle.cc_listing_shared.specs.Living as living;
ghost use Rattle.cc_listing_calls.specs.Views.{steps_of, accesses_of};
ghost use Rattle.cc_listing_calls.specs.Founds as spec;

use crate::first::first_readers;
use crate::group::grouped;
use crate::source::sources;
use cc_base::{List, Memory};
use cc_blocks::Block;
use cc_flows::Found;
use cc_lanes::Roads;
use cc_listed::{Access, Formal, Tables, Uses};
use std::alloc::{AllocError, Global};

fn taken_pairs(alloc: Global, found: &[Found]) -> Result<Vec<(u32, u32)>, AllocError>
    ensures { IfOk result (λ out. out.items ≡ map spec.taken_pair found.now) }
{
    found
        .iter()
        .map(|found| (found.definition, found.reader))
        .collect(alloc)
}

fn source_pairs(alloc: Global, found: &[Found]) -> Result<Vec<(u32, u32)>, AllocError>
    ensures { IfOk result (λ out. out.items ≡ map spec.source_pair found.now) }
{
    found
        .iter()
        .map(|found| (found.reader, found.definition))
        .collect(alloc)
}

/// For each formal who reads it first.
pub fn taken_rows(
    alloc: Global,
    roads: Roads,
    root: u32,
    tables: &Tables,
    uses: Uses,
    formals: &[Formal],
) -> Result<Vec<List<u32>>, Memory>
    requires next { StaysWithin roads.next.now }
    requires within { StaysWithin roads.within.now }
    requires points { length roads.within.now ≡ length roads.next.now }
    requires formals { (formal : Formal) → Contains formals.now formal
        → formal.entry < length roads.next.now }
    ensures { IfOk result (λ rows. spec.AreTaken (steps_of roads.entry root) tables.now
        (accesses_of uses.entry) formals.now rows.items) }
{
    let found = first_readers(alloc, roads, root, tables, uses, formals)?;
    let pairs = taken_pairs(alloc, found.as_slice())?;
    grouped(alloc, pairs.as_slice())
}

/// For each named read the definitions that reach it.
///
/// `reach` says which points are reachable, as [`cc_listing_shared::reach_of`] does.
pub fn source_rows(
    alloc: Global,
    roads: Roads,
    root: u32,
    tables: &Tables,
    reach: &[Block],
    uses: Uses,
    named: &[Access],
) -> Result<Vec<List<u32>>, Memory>
    requires next { StaysWithin roads.next.now }
    requires within { StaysWithin roads.within.now }
    requires points { length roads.within.now ≡ length roads.next.now }
    requires root { root < length roads.next.now }
    requires reach { living.IsReach roads.next.now root reach.now }
    ensures { IfOk result (λ rows. spec.AreSources (steps_of roads.entry root) tables.now
        (accesses_of uses.entry) named.now rows.items) }
{
    let found = sources(alloc, roads, root, tables, reach, uses, named)?;
    let pairs = source_pairs(alloc, found.as_slice())?;
    grouped(alloc, pairs.as_slice())
}
