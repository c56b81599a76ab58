// Who reads each formal first.
ghost use Rattle.std.specs.Prelude.{◌≡◌, ◌<◌, ◌↔◌, ℕ, Contains, IfOk, length};
ghost use Rattle.cc_flows.specs.Sweeping.{StaysWithin};
ghost use Rattle.cc_listed.specs.Stretches.{accesses, steps};
ghost use Rattle.cc_listed.specs.CallsListed.{Touches};
ghost use Rattle.cc_listing_calls.specs.Founds as spec;

use crate::number::{entries, numbered};
use cc_base::Memory;
use cc_flows::Found;
use cc_lanes::{Roads, join};
use cc_listed::{Access, Formal, Tables, Uses};
use std::alloc::{AllocError, Global};

// All accesses.
fn touching(alloc: Global, uses: Uses) -> Result<Vec<Access>, AllocError>
    ensures { IfOk result (λ out. (a : Access) → Contains out.items a ↔ Touches
        (accesses uses.entry.writes.now uses.entry.given.now uses.entry.passed.now uses.entry.reads.now) a) }
{
    let mut out = Vec::from_slice(alloc, uses.reads)?;
    out.extend_from_slice(uses.writes)?;
    out.extend_from_slice(uses.given)?;
    out.extend_from_slice(uses.passed)?;
    Ok(out)
}

/// Who reads each formal first: the number of the formal, the reader, and the formal's object.
pub fn first_readers(
    alloc: Global,
    roads: Roads,
    root: u32,
    tables: &Tables,
    uses: Uses,
    formals: &[Formal],
) -> Result<Vec<Found>, Memory>
    requires next { StaysWithin roads.next.now }
    requires within { StaysWithin roads.within.now }
    requires points { length roads.within.now ≡ length roads.next.now }
    requires formals { (formal : Formal) → Contains formals.now formal
        → formal.entry < length roads.next.now }
    ensures { IfOk result (λ out. (f : Found) → Contains out.items f
        ↔ spec.IsFirstReader (steps roads.entry.next.now roads.entry.within.now root) tables.now
        (accesses uses.entry.writes.now uses.entry.given.now uses.entry.passed.now uses.entry.reads.now)
        formals.now f) }
{
    let cutters = touching(alloc, uses)?;
    let entries = entries(alloc, formals)?;
    let starts = numbered(alloc, entries.as_slice())?;
    join(
        alloc,
        roads,
        tables,
        cutters.as_slice(),
        &[],
        starts.as_slice(),
        uses.reads,
    )
}
