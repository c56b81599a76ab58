// Accesses by which stretches are clear for their slot.
ghost use Rattle.std.specs.Prelude.{◌≡◌, filter, IfOk};
ghost use Rattle.cc_lanes.specs.Picking as spec;

use cc_listed::{Access, Kind, Tables, is_across, slot_at};
use std::alloc::{AllocError, Global};

/// Those of the accesses whose slot has stretches that may leave a function.
pub fn crossing(
    alloc: Global,
    tables: &Tables,
    accesses: &[Access],
) -> Result<Vec<Access>, AllocError>
    ensures { IfOk result (λ out. out.items ≡ filter (spec.crosses tables.now) accesses.now) }
{
    accesses
        .iter()
        .filter(|access| is_across(tables, access.slot))
        .copied()
        .collect(alloc)
}

// Whether stretches for the slot stay in a function.
fn is_inside(tables: &Tables, slot: u32) -> bool
    ensures { result ≡ spec.is_inside tables.now slot }
{
    match slot_at(tables, slot) {
        Some(slot) => match slot.kind {
            Kind::Inside => true,
            _ => false,
        },
        None => false,
    }
}

/// Those of the accesses whose slot has stretches that stay in a function.
pub fn staying(
    alloc: Global,
    tables: &Tables,
    accesses: &[Access],
) -> Result<Vec<Access>, AllocError>
    ensures { IfOk result (λ out. out.items ≡ filter (spec.stays tables.now) accesses.now) }
{
    accesses
        .iter()
        .filter(|access| is_inside(tables, access.slot))
        .copied()
        .collect(alloc)
}
