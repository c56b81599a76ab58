// Which definitions reach the reads that arguments and returns name.
ghost use Rattle.std.specs.Prelude.{◌≡◌, ◌<◌, ◌↔◌, ℕ, filter, Contains, IfOk, length};
ghost use Rattle.cc_flows.specs.Sweeping.{StaysWithin};
ghost use Rattle.cc_listed.specs.Stretches.{accesses, steps, DefinesAny};
ghost use Rattle.cc_listing_shared.specs.Living as living;
ghost use Rattle.cc_listing_calls.specs.Founds as spec;

use crate::number::numbered;
use cc_base::Memory;
use cc_blocks::Block;
use cc_flows::Found;
use cc_lanes::{Roads, join};
use cc_listed::{Access, Tables, Uses};
use cc_listing_shared::{cutting, is_reached};
use std::alloc::{AllocError, Global};

// All definitions.
fn definitions(alloc: Global, uses: Uses) -> Result<Vec<Access>, AllocError>
    ensures { IfOk result (λ out. (a : Access) → Contains out.items a ↔ DefinesAny
        (accesses uses.entry.writes.now uses.entry.given.now uses.entry.passed.now uses.entry.reads.now) a) }
{
    let mut out = Vec::from_slice(alloc, uses.writes)?;
    out.extend_from_slice(uses.given)?;
    out.extend_from_slice(uses.passed)?;
    Ok(out)
}

// Those of the definitions that are reachable.
fn reached(
    alloc: Global,
    root: u32,
    reach: &[Block],
    definitions: &[Access],
) -> Result<Vec<Access>, AllocError>
    ensures { IfOk result (λ out. out.items ≡ filter (spec.is_reached root reach.now) definitions.now) }
{
    definitions
        .iter()
        .filter(|access| is_reached(reach, root, access.point))
        .copied()
        .collect(alloc)
}

/// Which definitions reach the named reads: the definition, the number of the read, and the object.
///
/// `reach` says which points are reachable, as [`cc_listing_shared::reach_of`] does.
pub fn sources(
    alloc: Global,
    roads: Roads,
    root: u32,
    tables: &Tables,
    reach: &[Block],
    uses: Uses,
    named: &[Access],
) -> Result<Vec<Found>, Memory>
    requires next { StaysWithin roads.next.now }
    requires within { StaysWithin roads.within.now }
    requires points { length roads.within.now ≡ length roads.next.now }
    requires root { root < length roads.next.now }
    requires reach { living.IsReach roads.next.now root reach.now }
    ensures { IfOk result (λ out. (f : Found) → Contains out.items f
        ↔ spec.IsSource (steps roads.entry.next.now roads.entry.within.now root) tables.now
        (accesses uses.entry.writes.now uses.entry.given.now uses.entry.passed.now uses.entry.reads.now)
        named.now f) }
{
    let all = definitions(alloc, uses)?;
    let starts = reached(alloc, root, reach, all.as_slice())?;
    let cutters = cutting(alloc, tables, uses.writes)?;
    let targets = numbered(alloc, named)?;
    join(
        alloc,
        roads,
        tables,
        all.as_slice(),
        cutters.as_slice(),
        starts.as_slice(),
        targets.as_slice(),
    )
}
