// The shared rows.
ghost use Rattle.std.specs.Prelude.{◌≡◌, ◌↔◌, ◌<◌, ◌≤◌, ◌⊎◌, ℕ, true, map, Contains, IfOk, OnOk, Err, length};
ghost use Rattle.std.specs.List.Sorted.{IsStrictlySortedBy};
ghost use Rattle.cc_rows.specs.Gains.{Gains, Or};
ghost use Rattle.cc_rows.specs.Limits.{HasMore};
ghost use Rattle.cc_rows.specs.declared.stop.Stop.TheVariants.{TooMany};
ghost use Rattle.cc_flows.specs.Sweeping.{StaysWithin};
ghost use Rattle.cc_flows.specs.Flows.{found_cmp};
ghost use Rattle.cc_lanes.specs.Lanes.{AreLanes, lane_of};
ghost use Rattle.cc_listing_shared.specs.Living as living;
ghost use Rattle.cc_listing_shared.specs.SharedRows as spec;

use crate::cut::wipes_of;
use crate::live::{Routes, live_among};
use cc_base::Memory;
use cc_blocks::Block;
use cc_flows::{Found, Ways, flows};
use cc_lanes::{Lanes, Whose, crossing, lanes_of, pairs_read, spread};
use cc_listed::{Access, Tables, Uses};
use cc_rows::{Stop, limited};
use std::alloc::Global;

// The reachable definitions that are no arguments, of slots whose stretches may leave a function.
fn live_definitions(
    alloc: Global,
    tables: &Tables,
    root: u32,
    reach: &[Block],
    uses: Uses,
) -> Result<Vec<Access>, Memory>
    ensures { IfOk result (λ out. (a : Access) → Contains out.items a
        ↔ ((Contains uses.entry.writes.now a ⊎ Contains uses.entry.given.now a)
        × (living.is_live tables.now root reach.now a ≡ true))) }
{
    let mut out = live_among(alloc, tables, root, reach, uses.writes)?;
    let more = live_among(alloc, tables, root, reach, uses.given)?;
    out.extend_from_slice(more.as_slice())?;
    Ok(out)
}

// Finds the rows of these definitions and reads.
fn find_rows(
    alloc: Global,
    found: &mut Vec<Found>,
    most: usize,
    routes: Routes,
    tables: &Tables,
    lanes: &Lanes,
    uses: Uses,
    live: &[Access],
    reads: &[Access],
) -> Result<(), Stop>
    requires next { StaysWithin routes.next.now }
    requires live { (a : Access) → Contains live.now a → a.point < length routes.next.now }
    requires lanes { AreLanes tables.now (map (lane_of tables.now) reads.now) lanes.now }
    ensures found { OnOk result (Gains found.old.items found.new.items
        (spec.IsRow routes.entry.next.now tables.now uses.entry.writes.now uses.entry.reads.now live.now reads.now)) }
    ensures many { result ≡ Err TooMany → HasMore found_cmp (Or found.old.items
        (spec.IsRow routes.entry.next.now tables.now uses.entry.writes.now uses.entry.reads.now live.now reads.now)) most }
{
    let points = routes.next.len();
    let wipes = wipes_of(alloc, tables, lanes, points, uses.writes, uses.reads)?;
    let starts = spread(alloc, tables, lanes, Whose::Others, live)?;
    let targets = spread(alloc, tables, lanes, Whose::Own, reads)?;
    let ways = Ways {
        next: routes.next,
        order: routes.order,
        wipes: wipes.as_slice(),
    };
    flows(
        alloc,
        found,
        most,
        ways,
        targets.as_slice(),
        lanes.pairs.len(),
        starts.as_slice(),
    )
}

// The listed rows as they are found.
fn found_rows(
    alloc: Global,
    routes: Routes,
    tables: &Tables,
    reach: &[Block],
    uses: Uses,
    most: usize,
) -> Result<Vec<Found>, Stop>
    requires next { StaysWithin routes.next.now }
    requires root { routes.root < length routes.next.now }
    requires reach { living.IsReach routes.next.now routes.root reach.now }
    ensures listed { IfOk result (λ rows. spec.AreListed routes.entry.next.now routes.entry.root tables.now
        uses.entry.writes.now uses.entry.given.now uses.entry.passed.now uses.entry.reads.now rows.items) }
    ensures many { result ≡ Err TooMany → spec.HasMoreListed routes.entry.next.now routes.entry.root tables.now
        uses.entry.writes.now uses.entry.given.now uses.entry.passed.now uses.entry.reads.now most }
{
    let live = live_definitions(alloc, tables, routes.root, reach, uses)?;
    let reads = crossing(alloc, tables, uses.reads)?;
    let pairs = pairs_read(alloc, tables, reads.as_slice())?;
    let lanes = lanes_of(alloc, tables, pairs)?;
    let mut found = Vec::new(alloc);
    find_rows(
        alloc,
        &mut found,
        most,
        routes,
        tables,
        &lanes,
        uses,
        live.as_slice(),
        reads.as_slice(),
    )?;
    Ok(found)
}

/// The shared rows that are listed: the definition, its reader and the object, ascending, each once. That there are too many
/// is told where there are more than `most`.
///
/// `reach` says which points are reachable, as [`crate::reach_of`] does.
pub fn shared_rows(
    alloc: Global,
    routes: Routes,
    tables: &Tables,
    reach: &[Block],
    uses: Uses,
    most: usize,
) -> Result<Vec<Found>, Stop>
    requires next { StaysWithin routes.next.now }
    requires root { routes.root < length routes.next.now }
    requires reach { living.IsReach routes.next.now routes.root reach.now }
    ensures listed { IfOk result (λ rows. spec.AreListed routes.entry.next.now routes.entry.root tables.now
        uses.entry.writes.now uses.entry.given.now uses.entry.passed.now uses.entry.reads.now rows.items) }
    ensures ascending { IfOk result (λ rows. IsStrictlySortedBy found_cmp rows.items) }
    ensures few { IfOk result (λ rows. length rows.items ≤ most) }
    ensures many { result ≡ Err TooMany → spec.HasMoreListed routes.entry.next.now routes.entry.root tables.now
        uses.entry.writes.now uses.entry.given.now uses.entry.passed.now uses.entry.reads.now most }
{
    let found = found_rows(alloc, routes, tables, reach, uses, most)?;
    limited(found, most)
}
