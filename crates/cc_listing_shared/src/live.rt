// What is reachable.
ghost use Rattle.std.specs.Prelude.{◌≡◌, ◌<◌, ◌↔◌, ◌⊎◌, ℕ, true, filter, Contains, IfOk, length, nat_eq, slice_get};
ghost use Rattle.cc_flows.specs.Sweeping.{StaysWithin, bit_at_point};
ghost use Rattle.cc_listing_shared.specs.Living as spec;

use cc_base::{List, Memory};
use cc_blocks::Block;
use cc_flows::{empty_sets, sweep};
use cc_listed::{Access, Tables, is_across};
use std::alloc::{AllocError, Global};

/// The steps from point to point across functions.
#[derive(Clone, Copy)]
pub struct Routes<'a> {
    /// For each point the points that come next.
    pub next: &'a [List<u32>],
    /// An order in which to visit points, which may be any.
    pub order: &'a [u32],
    /// The point at which all paths begin.
    pub root: u32,
}

/// For each point a set that has number 0 where a path from the root leads to the point.
pub fn reach_of(alloc: Global, routes: Routes) -> Result<Vec<Block>, Memory>
    requires next { StaysWithin routes.next.now }
    requires root { routes.root < length routes.next.now }
    ensures { IfOk result (λ reach. spec.IsReach routes.entry.next.now routes.entry.root reach.items) }
{
    let clears = empty_sets(alloc, routes.next.len())?;
    let starts = [routes.root];
    sweep(alloc, routes.next, routes.order, clears.as_slice(), &starts)
}

fn find(reach: &[Block], point: usize) -> Option<Block>
    ensures { result ≡ slice_get reach.now point }
{
    reach.get(point).copied()
}

// Whether the set of the point has number 0.
fn has_first(reach: &[Block], point: usize) -> bool
    ensures { result ≡ nat_eq (bit_at_point reach.now point 0) 1 }
{
    match find(reach, point) {
        Some(block) => block.has(0),
        None => false,
    }
}

/// Whether the point is reachable, by the sets that [`reach_of`] gives.
pub fn is_reached(reach: &[Block], root: u32, point: u32) -> bool
    ensures { result ≡ spec.is_reached root reach.now point }
{
    point == root || has_first(reach, point as usize)
}

fn is_live(tables: &Tables, root: u32, reach: &[Block], access: Access) -> bool
    ensures { result ≡ spec.is_live tables.now root reach.now access }
{
    is_across(tables, access.slot) && is_reached(reach, root, access.point)
}

/// Those of the definitions that are reachable, and whose stretches may leave a function.
pub fn live_among(
    alloc: Global,
    tables: &Tables,
    root: u32,
    reach: &[Block],
    definitions: &[Access],
) -> Result<Vec<Access>, AllocError>
    ensures { IfOk result (λ out. out.items ≡ filter (spec.is_live tables.now root reach.now) definitions.now) }
{
    definitions
        .iter()
        .filter(|access| is_live(tables, root, reach, **access))
        .copied()
        .collect(alloc)
}
