// Which lanes each point wipes.
ghost use Rattle.std.specs.Prelude.{◌≡◌, ◌↔◌, ℕ, filter, Contains, IfOk, length};
ghost use Rattle.cc_listing_shared.specs.Cutting as spec;

use cc_base::{List, Memory};
use cc_lanes::{Lanes, Whose, point_pairs, spread, table_of};
use cc_listed::{Access, Tables, is_by_name, is_named};
use std::alloc::{AllocError, Global};

fn cuts(tables: &Tables, access: Access) -> bool
    ensures { result ≡ spec.cuts tables.now access }
{
    is_by_name(tables, access.occurrence) && is_named(tables, access.slot)
}

/// Those of the accesses that end stretches for their slot.
pub fn cutting(
    alloc: Global,
    tables: &Tables,
    accesses: &[Access],
) -> Result<Vec<Access>, AllocError>
    ensures { IfOk result (λ out. out.items ≡ filter (spec.cuts tables.now) accesses.now) }
{
    accesses
        .iter()
        .filter(|access| cuts(tables, **access))
        .copied()
        .collect(alloc)
}

// The points and lanes of those of the accesses that end stretches for their slot.
fn cut_pairs(
    alloc: Global,
    tables: &Tables,
    lanes: &Lanes,
    whose: Whose,
    accesses: &[Access],
) -> Result<Vec<(u32, u32)>, Memory>
    ensures { IfOk result (λ out. (p : ℕ × ℕ) → Contains out.items p
        ↔ spec.IsCutBy tables.now lanes.now whose accesses.now p) }
{
    let kept = cutting(alloc, tables, accesses)?;
    let touches = spread(alloc, tables, lanes, whose, kept.as_slice())?;
    Ok(point_pairs(alloc, touches.as_slice())?)
}

/// For each point the lanes that it wipes: those of a slot that it writes by name, and that of a slot and a component in
/// which it reads the slot by name.
pub fn wipes_of(
    alloc: Global,
    tables: &Tables,
    lanes: &Lanes,
    points: usize,
    writes: &[Access],
    reads: &[Access],
) -> Result<Vec<List<u32>>, Memory>
    ensures long { IfOk result (λ wipes. length wipes.items ≡ points) }
    ensures exact { IfOk result (λ wipes.
        spec.AreWipes tables.now lanes.now points writes.now reads.now wipes.items) }
{
    let mut pairs = cut_pairs(alloc, tables, lanes, Whose::All, writes)?;
    let more = cut_pairs(alloc, tables, lanes, Whose::Own, reads)?;
    pairs.extend_from_slice(more.as_slice())?;
    table_of(alloc, points, pairs.as_slice())
}
