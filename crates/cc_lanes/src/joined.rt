// Which starts reach which targets, by the kind of their slot.
ghost use Rattle.std.specs.Prelude.{◌≡◌, ◌<◌, ◌↔◌, ℕ, filter, Contains, IfOk, OnOk, length};
ghost use Rattle.cc_rows.specs.Gains.{Gains};
ghost use Rattle.cc_flows.specs.Sweeping.{StaysWithin};
ghost use Rattle.cc_lanes.specs.Connections.{IsConnected};
ghost use Rattle.cc_lanes.specs.Joins.{IsJoined};

use crate::connected::connect;
use crate::pick::{crossing, staying};
use cc_base::{List, Memory};
use cc_flows::Found;
use cc_listed::{Access, Tables};
use std::alloc::Global;

/// The steps across functions and inside them, with orders in which to visit points, which may be any.
#[derive(Clone, Copy)]
pub struct Roads<'a> {
    /// For each point the points that come next across functions.
    pub next: &'a [List<u32>],
    pub order: &'a [u32],
    /// For each point the points that come next inside the function.
    pub within: &'a [List<u32>],
    pub order_within: &'a [u32],
}

// Adds what is connected, however much that is.
fn connect_all(
    alloc: Global,
    found: &mut Vec<Found>,
    next: &[List<u32>],
    order: &[u32],
    tables: &Tables,
    cutters: &[Access],
    starts: &[Access],
    targets: &[Access],
) -> Result<(), Memory>
    requires next { StaysWithin next.now }
    requires starts { (a : Access) → Contains starts.now a → a.point < length next.now }
    ensures { OnOk result (Gains found.old.items found.new.items
        (IsConnected next.now tables.now cutters.now starts.now targets.now)) }
{
    match connect(
        alloc,
        found,
        usize::MAX,
        next,
        order,
        tables,
        cutters,
        starts,
        targets,
    ) {
        Ok(()) => Ok(()),
        Err(_) => Err(Memory),
    }
}

/// What is found where a path leads from one of the starts to one of the targets of the same slot: inside the function
/// where stretches for the slot stay there, and `inner` are the cutters; else across functions, and `outer` are.
pub fn join(
    alloc: Global,
    roads: Roads,
    tables: &Tables,
    inner: &[Access],
    outer: &[Access],
    starts: &[Access],
    targets: &[Access],
) -> Result<Vec<Found>, Memory>
    requires next { StaysWithin roads.next.now }
    requires within { StaysWithin roads.within.now }
    requires points { length roads.within.now ≡ length roads.next.now }
    requires starts { (a : Access) → Contains starts.now a → a.point < length roads.next.now }
    ensures { IfOk result (λ out. (f : Found) → Contains out.items f
        ↔ IsJoined roads.entry.next.now roads.entry.within.now tables.now inner.now outer.now starts.now targets.now f) }
{
    let held = staying(alloc, tables, starts)?;
    let free = crossing(alloc, tables, starts)?;
    let mut found = Vec::new(alloc);
    connect_all(
        alloc,
        &mut found,
        roads.within,
        roads.order_within,
        tables,
        inner,
        held.as_slice(),
        targets,
    )?;
    connect_all(
        alloc,
        &mut found,
        roads.next,
        roads.order,
        tables,
        outer,
        free.as_slice(),
        targets,
    )?;
    Ok(found)
}
