// Accesses in lanes.
ghost use Rattle.std.specs.Prelude.{◌≡◌, ◌↔◌, ℕ, Contains, IfOk, OnOk, slice_get};
ghost use Rattle.cc_flows.specs.Masks.{row_of};
ghost use Rattle.cc_rows.specs.Gains.{Gains, Each};
ghost use Rattle.cc_lanes.specs.Spreading as spec;

use crate::lane::Lanes;
use cc_base::{List, Memory};
use cc_flows::Touch;
use cc_listed::{Access, Tables, component_of, slot_at};
use std::alloc::Global;

/// Into which lanes of its slot an access goes.
#[derive(Clone, Copy)]
pub enum Whose {
    /// Into that of its own component.
    Own,
    /// Into those of other components.
    Others,
    /// Into all.
    All,
}

// Whether an access of one component goes into the lane of another one.
fn goes(whose: Whose, own: u32, lane: u32) -> bool
    ensures { result ≡ spec.goes whose own lane }
{
    match whose {
        Whose::Own => own == lane,
        Whose::Others => own != lane,
        Whose::All => true,
    }
}

fn lane_at(lanes: &Lanes, number: u32) -> Option<(u32, u32)>
    ensures { result ≡ slice_get lanes.now.pairs.items number }
{
    lanes.pairs.as_slice().get(number as usize).copied()
}

// The object of a slot; 0 where there is no such slot.
fn object_of(tables: &Tables, slot: u32) -> u32
    ensures { result ≡ spec.object_of tables.now slot }
{
    match slot_at(tables, slot) {
        Some(slot) => slot.object,
        None => 0,
    }
}

// An access in a lane.
fn touch_of(tables: &Tables, access: Access, lane: u32) -> Touch
    ensures { result ≡ spec.touch_of tables.now access lane }
{
    Touch {
        point: access.point,
        slot: lane,
        node: access.occurrence,
        object: object_of(tables, access.slot),
    }
}

// Whether an access goes into the lane of this number.
fn goes_into(tables: &Tables, lanes: &Lanes, whose: Whose, access: Access, number: u32) -> bool
    ensures { result ≡ spec.goes_into tables.now lanes.now.pairs.items whose access number }
{
    match lane_at(lanes, number) {
        Some(lane) => goes(whose, component_of(tables, access.occurrence), lane.1),
        None => false,
    }
}

// Puts an access into a lane, if it goes there.
fn put_into(
    out: &mut Vec<Touch>,
    tables: &Tables,
    lanes: &Lanes,
    whose: Whose,
    access: Access,
    number: u32,
) -> Result<(), Memory>
    ensures { OnOk result (Gains out.old.items out.new.items
        (spec.IsInto tables.now lanes.now.pairs.items whose access number)) }
{
    if goes_into(tables, lanes, whose, access, number) {
        out.push(touch_of(tables, access, number))?;
    }
    Ok(())
}

// Puts an access into the lanes of these numbers.
fn put_into_all(
    out: &mut Vec<Touch>,
    tables: &Tables,
    lanes: &Lanes,
    whose: Whose,
    access: Access,
    numbers: &[u32],
) -> Result<(), Memory>
    ensures { OnOk result (Gains out.old.items out.new.items
        (Each numbers.now (spec.IsInto tables.now lanes.now.pairs.items whose access))) }
{
    for number in numbers {
        put_into(out, tables, lanes, whose, access, *number)?;
    }
    Ok(())
}

// The numbers of the lanes of a slot.
fn lanes_at(rows: &[List<u32>], slot: u32) -> &[u32]
    ensures { result.now ≡ row_of rows.now slot }
{
    match rows.get(slot as usize) {
        Some(row) => row.as_slice(),
        None => &[],
    }
}

/// The accesses, each in the lanes of its slot into which it goes.
pub fn spread(
    alloc: Global,
    tables: &Tables,
    lanes: &Lanes,
    whose: Whose,
    accesses: &[Access],
) -> Result<Vec<Touch>, Memory>
    ensures { IfOk result (λ out. (x : Touch) → Contains out.items x
        ↔ Each accesses.now (spec.IsSpread tables.now lanes.now whose) x) }
{
    let mut out = Vec::new(alloc);
    for access in accesses {
        put_into_all(
            &mut out,
            tables,
            lanes,
            whose,
            *access,
            lanes_at(lanes.by_slot.as_slice(), access.slot),
        )?;
    }
    Ok(out)
}
