// Calls that lead into another component, and that a path reaches.
ghost use Rattle.std.specs.Prelude.{◌≡◌, filter, IfOk};
ghost use Rattle.cc_listing_calls.specs.Live as spec;

use cc_blocks::Block;
use cc_listed::{Call, Returned, Tables, component_of};
use cc_listing_shared::is_reached;
use std::alloc::{AllocError, Global};

fn is_live(tables: &Tables, root: u32, reach: &[Block], call: Call) -> bool
    ensures { result ≡ spec.is_live tables.now root reach.now call }
{
    component_of(tables, call.site) != component_of(tables, call.callee)
        && is_reached(reach, root, call.at)
}

/// Those of the calls that lead into another component, and whose point is reachable.
pub fn live_calls(
    alloc: Global,
    tables: &Tables,
    root: u32,
    reach: &[Block],
    calls: &[Call],
) -> Result<Vec<Call>, AllocError>
    ensures { IfOk result (λ out. out.items ≡ filter (spec.is_live tables.now root reach.now) calls.now) }
{
    calls
        .iter()
        .filter(|call| is_live(tables, root, reach, **call))
        .copied()
        .collect(alloc)
}

fn is_asking(tables: &Tables, root: u32, reach: &[Block], call: Call) -> bool
    ensures { result ≡ spec.is_asking tables.now root reach.now call }
{
    call.used && is_live(tables, root, reach, call)
}

/// Those of the calls whose site uses the value, that lead into another component, and whose point is reachable.
pub fn asking_calls(
    alloc: Global,
    tables: &Tables,
    root: u32,
    reach: &[Block],
    calls: &[Call],
) -> Result<Vec<Call>, AllocError>
    ensures { IfOk result (λ out. out.items ≡ filter (spec.is_asking tables.now root reach.now) calls.now) }
{
    calls
        .iter()
        .filter(|call| is_asking(tables, root, reach, **call))
        .copied()
        .collect(alloc)
}

/// Those of the returns after which the point is reachable.
pub fn reached_returns(
    alloc: Global,
    root: u32,
    reach: &[Block],
    returns: &[Returned],
) -> Result<Vec<Returned>, AllocError>
    ensures { IfOk result (λ out. out.items ≡ filter (spec.is_given root reach.now) returns.now) }
{
    returns
        .iter()
        .filter(|returned| is_reached(reach, root, returned.after))
        .copied()
        .collect(alloc)
}
