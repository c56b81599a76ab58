// Lanes.
ghost use Rattle.std.specs.Prelude.{◌≡◌, IfOk, IfSome, map};
ghost use Rattle.cc_lanes.specs.Lanes.{lane_of, AreLanes, AreNumbered};

use crate::table::table_of;
use cc_base::{List, Memory};
use cc_listed::{Access, Tables, component_of};
use cc_rows::arrange;
use std::alloc::{AllocError, Global};

/// Slots with components that read them.
#[derive(Drop)]
pub struct Lanes {
    /// Each lane once: a slot and a component.
    pub pairs: Vec<(u32, u32)>,
    /// For each slot the numbers of its lanes.
    pub by_slot: Vec<List<u32>>,
}

/// The slots that are read, each with the component of the reader.
pub fn pairs_read(
    alloc: Global,
    tables: &Tables,
    reads: &[Access],
) -> Result<Vec<(u32, u32)>, AllocError>
    ensures { IfOk result (λ out. out.items ≡ map (lane_of tables.now) reads.now) }
{
    reads
        .iter()
        .map(|read| (read.slot, component_of(tables, read.occurrence)))
        .collect(alloc)
}

// A number of 32 bits.
fn small(i: usize) -> Option<u32>
    ensures { IfSome result (λ n. n ≡ i) }
{
    if i < 4294967296 { Some(i as u32) } else { None }
}

// The slot of each lane, with the lane's number.
fn numbers_of(alloc: Global, lanes: &[(u32, u32)]) -> Result<Vec<(u32, u32)>, Memory>
    ensures { IfOk result (λ out. AreNumbered lanes.now out.items) }
{
    let mut out = Vec::new(alloc);
    for (i, lane) in lanes.iter().enumerate() {
        let Some(number) = small(i) else {
            return Err(Memory);
        };
        out.push((lane.0, number))?;
    }
    Ok(out)
}

/// The lanes of these pairs of a slot and a component.
pub fn lanes_of(alloc: Global, tables: &Tables, pairs: Vec<(u32, u32)>) -> Result<Lanes, Memory>
    ensures { IfOk result (λ lanes. AreLanes tables.now pairs.items lanes) }
{
    let mut pairs = pairs;
    arrange(&mut pairs);
    let numbers = numbers_of(alloc, pairs.as_slice())?;
    let slots = tables.slots.as_slice().len();
    let by_slot = table_of(alloc, slots, numbers.as_slice())?;
    Ok(Lanes { pairs, by_slot })
}
