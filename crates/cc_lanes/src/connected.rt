// Which starts reach which targets of the same slot.
ghost use Rattle.std.specs.Prelude.{◌≡◌, ◌<◌, ℕ, map, Contains, IfOk, OnOk, Err, length};
ghost use Rattle.cc_rows.specs.Gains.{Gains, Or};
ghost use Rattle.cc_rows.specs.Limits.{HasMore};
ghost use Rattle.cc_rows.specs.declared.stop.Stop.TheVariants.{TooMany};
ghost use Rattle.cc_flows.specs.Flows.{found_cmp};
ghost use Rattle.cc_flows.specs.Sweeping.{StaysWithin};
ghost use Rattle.cc_lanes.specs.Connections as spec;

use crate::laid::{Whose, spread};
use crate::lane::{Lanes, lanes_of};
use crate::table::table_of;
use cc_base::{List, Memory};
use cc_flows::{Found, Touch, Ways, flows};
use cc_listed::{Access, Tables};
use cc_rows::Stop;
use std::alloc::{AllocError, Global};

// The slots of accesses, with a component that is the same for all.
fn plain_pairs(alloc: Global, accesses: &[Access]) -> Result<Vec<(u32, u32)>, AllocError>
    ensures { IfOk result (λ out. out.items ≡ map spec.plain_lane accesses.now) }
{
    accesses
        .iter()
        .map(|access| (access.slot, 0))
        .collect(alloc)
}

/// The points and lanes of accesses.
pub fn point_pairs(alloc: Global, touches: &[Touch]) -> Result<Vec<(u32, u32)>, AllocError>
    ensures { IfOk result (λ out. out.items ≡ map spec.pair_of touches.now) }
{
    touches
        .iter()
        .map(|touch| (touch.point, touch.slot))
        .collect(alloc)
}

// For each point the lanes that the cutters wipe there.
fn cut_rows(
    alloc: Global,
    tables: &Tables,
    lanes: &Lanes,
    points: usize,
    cutters: &[Access],
) -> Result<Vec<List<u32>>, Memory>
    ensures long { IfOk result (λ wipes. length wipes.items ≡ points) }
    ensures exact { IfOk result (λ wipes. spec.AreCuts tables.now lanes.now points cutters.now wipes.items) }
{
    let touches = spread(alloc, tables, lanes, Whose::All, cutters)?;
    let pairs = point_pairs(alloc, touches.as_slice())?;
    table_of(alloc, points, pairs.as_slice())
}

/// Adds what is found where a path of one step or more leads from one of the starts to one of the targets of the same slot,
/// and at no inner point one of the cutters is of that slot.
pub fn connect(
    alloc: Global,
    found: &mut Vec<Found>,
    most: usize,
    next: &[List<u32>],
    order: &[u32],
    tables: &Tables,
    cutters: &[Access],
    starts: &[Access],
    targets: &[Access],
) -> Result<(), Stop>
    requires next { StaysWithin next.now }
    requires starts { (a : Access) → Contains starts.now a → a.point < length next.now }
    ensures found { OnOk result (Gains found.old.items found.new.items
        (spec.IsConnected next.now tables.now cutters.now starts.now targets.now)) }
    ensures many { result ≡ Err TooMany → HasMore found_cmp (Or found.old.items
        (spec.IsConnected next.now tables.now cutters.now starts.now targets.now)) most }
{
    let pairs = plain_pairs(alloc, targets)?;
    let lanes = lanes_of(alloc, tables, pairs)?;
    let wipes = cut_rows(alloc, tables, &lanes, next.len(), cutters)?;
    let begins = spread(alloc, tables, &lanes, Whose::All, starts)?;
    let ends = spread(alloc, tables, &lanes, Whose::All, targets)?;
    let ways = Ways {
        next,
        order,
        wipes: wipes.as_slice(),
    };
    flows(
        alloc,
        found,
        most,
        ways,
        ends.as_slice(),
        lanes.pairs.len(),
        begins.as_slice(),
    )
}
