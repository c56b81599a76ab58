// The call, parameter and return rows that are listed.
ghost use Rattle.std.specs.Prelude.{◌≡◌, ◌<◌, ◌≤◌, ◌↔◌, Contains, IfOk, OnOk, Err, length};
ghost use Rattle.std.specs.List.Sorted.{IsStrictlySortedBy};
ghost use Rattle.cc_rows.specs.Gains.{Gains, Or};
ghost use Rattle.cc_rows.specs.Limits.{HasMore};
ghost use Rattle.cc_rows.specs.Order.{row_cmp};
ghost use Rattle.cc_rows.specs.declared.stop.Stop.TheVariants.{TooMany};
ghost use Rattle.cc_flows.specs.Sweeping.{StaysWithin};
ghost use Rattle.cc_listed.specs.declared.calls.Formal.{Formal};
ghost use Rattle.cc_listing_shared.specs.Living as living;
ghost use Rattle.cc_listing_calls.specs.Founds.{AreSources};
ghost use Rattle.cc_listing_calls.specs.Views.{steps_of, accesses_of};
ghost use Rattle.cc_listing_calls.specs.ListedCalls.{IsParameterRow, IsListedCall};
ghost use Rattle.cc_listing_calls.specs.Adding as adding;

use crate::found::{source_rows, taken_rows};
use crate::giving::{Giving, add_calls, add_returns};
use crate::group::{arguments_by_site, formals_by_callee, returns_by_callee};
use crate::live::{asking_calls, live_calls, reached_returns};
use crate::onward::handing;
use crate::rows::{Passing, add_parameters};
use cc_base::List;
use cc_blocks::Block;
use cc_lanes::Roads;
use cc_listed::{Call, Calls, Returned, Tables, Uses};
use cc_rows::{Row, Stop, limited};
use std::alloc::Global;

/// Adds the call rows that are listed.
///
/// `reach` says which points are reachable, as [`cc_listing_shared::reach_of`] does.
pub fn call_rows(
    alloc: Global,
    rows: &mut Vec<Row>,
    most: usize,
    root: u32,
    tables: &Tables,
    reach: &[Block],
    calls: &[Call],
) -> Result<(), Stop>
    ensures rows { OnOk result
        (adding.AddsCalls root tables.now reach.now calls.now rows.old.items rows.new.items) }
    ensures many { result ≡ Err TooMany
        → adding.HasMoreCalls root tables.now reach.now calls.now rows.old.items most }
{
    let live = live_calls(alloc, tables, root, reach, calls)?;
    add_calls(rows, most, live.as_slice())
}

/// Adds the return rows that are listed. `sources` has for each named read the definitions that reach it.
pub fn return_rows(
    alloc: Global,
    rows: &mut Vec<Row>,
    most: usize,
    root: u32,
    tables: &Tables,
    reach: &[Block],
    sources: &[List<u32>],
    calls: &[Call],
    returns: &[Returned],
) -> Result<(), Stop>
    ensures rows { OnOk result (adding.AddsReturns root tables.now reach.now sources.now
        calls.now returns.now rows.old.items rows.new.items) }
    ensures many { result ≡ Err TooMany → adding.HasMoreReturns root tables.now reach.now sources.now
        calls.now returns.now rows.old.items most }
{
    let asking = asking_calls(alloc, tables, root, reach, calls)?;
    let given = reached_returns(alloc, root, reach, returns)?;
    let reached = given.as_slice();
    let by_callee = returns_by_callee(alloc, reached)?;
    let giving = Giving {
        returns: reached,
        by_callee: by_callee.as_slice(),
        sources,
    };
    add_returns(rows, most, giving, asking.as_slice())
}

/// Adds the parameter rows that are listed. `sources` has for each named read the definitions that reach it.
pub fn parameter_rows(
    alloc: Global,
    rows: &mut Vec<Row>,
    most: usize,
    roads: Roads,
    root: u32,
    tables: &Tables,
    reach: &[Block],
    sources: &[List<u32>],
    uses: Uses,
    calls: Calls,
) -> Result<(), Stop>
    requires next { StaysWithin roads.next.now }
    requires within { StaysWithin roads.within.now }
    requires points { length roads.within.now ≡ length roads.next.now }
    requires reach { living.IsReach roads.next.now root reach.now }
    requires sources { AreSources (steps_of roads root) tables.now (accesses_of uses) calls.named.now sources.now }
    requires formals { (formal : Formal) → Contains calls.formals.now formal
        → formal.entry < length roads.next.now }
    ensures rows { OnOk result (Gains rows.old.items rows.new.items
        (IsParameterRow (steps_of roads.entry root) tables.now (accesses_of uses.entry) calls.entry)) }
    ensures many { result ≡ Err TooMany → HasMore row_cmp (Or rows.old.items
        (IsParameterRow (steps_of roads.entry root) tables.now (accesses_of uses.entry) calls.entry)) most }
{
    let live = live_calls(alloc, tables, root, reach, calls.calls)?;
    let handed = handing(alloc, roads, calls.named, calls.arguments)?;
    let arguments = handed.as_slice();
    let by_site = arguments_by_site(alloc, arguments)?;
    let by_callee = formals_by_callee(alloc, calls.formals)?;
    let taken = taken_rows(alloc, roads, root, tables, uses, calls.formals)?;
    let passing = Passing {
        arguments,
        formals: calls.formals,
        by_site: by_site.as_slice(),
        by_callee: by_callee.as_slice(),
        sources,
        taken: taken.as_slice(),
    };
    add_parameters(rows, most, passing, live.as_slice())
}

// The rows that are listed as they are found.
fn found_rows(
    alloc: Global,
    roads: Roads,
    root: u32,
    tables: &Tables,
    reach: &[Block],
    uses: Uses,
    calls: Calls,
    most: usize,
) -> Result<Vec<Row>, Stop>
    requires next { StaysWithin roads.next.now }
    requires within { StaysWithin roads.within.now }
    requires points { length roads.within.now ≡ length roads.next.now }
    requires root { root < length roads.next.now }
    requires reach { living.IsReach roads.next.now root reach.now }
    requires formals { (formal : Formal) → Contains calls.formals.now formal
        → formal.entry < length roads.next.now }
    ensures listed { IfOk result (λ rows. (r : Row) → Contains rows.items r
        ↔ IsListedCall (steps_of roads.entry root) tables.now (accesses_of uses.entry) calls.entry r) }
    ensures many { result ≡ Err TooMany → HasMore row_cmp
        (IsListedCall (steps_of roads.entry root) tables.now (accesses_of uses.entry) calls.entry) most }
{
    let sources = source_rows(alloc, roads, root, tables, reach, uses, calls.named)?;
    let mut rows = Vec::new(alloc);
    call_rows(alloc, &mut rows, most, root, tables, reach, calls.calls)?;
    return_rows(
        alloc,
        &mut rows,
        most,
        root,
        tables,
        reach,
        sources.as_slice(),
        calls.calls,
        calls.returns,
    )?;
    parameter_rows(
        alloc,
        &mut rows,
        most,
        roads,
        root,
        tables,
        reach,
        sources.as_slice(),
        uses,
        calls,
    )?;
    Ok(rows)
}

/// The call, parameter and return rows that are listed, ascending, each once. That there are too many is told where there
/// are more than `most`.
///
/// `reach` says which points are reachable, as [`cc_listing_shared::reach_of`] does.
pub fn listed_calls(
    alloc: Global,
    roads: Roads,
    root: u32,
    tables: &Tables,
    reach: &[Block],
    uses: Uses,
    calls: Calls,
    most: usize,
) -> Result<Vec<Row>, Stop>
    requires next { StaysWithin roads.next.now }
    requires within { StaysWithin roads.within.now }
    requires points { length roads.within.now ≡ length roads.next.now }
    requires root { root < length roads.next.now }
    requires reach { living.IsReach roads.next.now root reach.now }
    requires formals { (formal : Formal) → Contains calls.formals.now formal
        → formal.entry < length roads.next.now }
    ensures listed { IfOk result (λ rows. (r : Row) → Contains rows.items r
        ↔ IsListedCall (steps_of roads.entry root) tables.now (accesses_of uses.entry) calls.entry r) }
    ensures ascending { IfOk result (λ rows. IsStrictlySortedBy row_cmp rows.items) }
    ensures few { IfOk result (λ rows. length rows.items ≤ most) }
    ensures many { result ≡ Err TooMany → HasMore row_cmp
        (IsListedCall (steps_of roads.entry root) tables.now (accesses_of uses.entry) calls.entry) most }
{
    let rows = found_rows(alloc, roads, root, tables, reach, uses, calls, most)?;
    limited(rows, most)
}
