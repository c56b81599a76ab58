// Which functions are live.
ghost use Rattle.std.specs.Prelude.{◌≡◌, ◌+◌, ◌<◌, ◌^◌, map, IfOk, OnOk};
ghost use Rattle.cc_across.specs.Reaching as spec;

use crate::owners::Owners;
use crate::pairs::join;
use cc_arena::Arena;
use cc_base::{Edge, Memory, reachable};
use cc_program::FuncId;
use std::alloc::{AllocError, Global};

// Adds each of these functions with the function `g`.
fn join_callers(
    pairs: &mut Vec<(u32, u32)>,
    count: u32,
    callers: &[u32],
    g: u32,
) -> Result<(), Memory>
    ensures { OnOk result (pairs.new.items ≡ spec.callers_joined count callers.now g pairs.old.items) }
{
    for f in callers {
        join(pairs, count, Some(*f), Some(g))?;
    }
    Ok(())
}

// Adds, of each call, the functions in whose body it stands with the function that it may call.
fn join_calls(
    pairs: &mut Vec<(u32, u32)>,
    arena: &Arena,
    owners: &Owners,
    count: u32,
    calls: &[(u32, u32)],
) -> Result<(), Memory>
    ensures { OnOk result (pairs.new.items
        ≡ spec.calls_joined arena.now owners.now count calls.now pairs.old.items) }
{
    for call in calls {
        join_callers(pairs, count, owners.functions_of(arena, call.0), call.1)?;
    }
    Ok(())
}

// Adds the root with each entry.
fn join_entries(
    pairs: &mut Vec<(u32, u32)>,
    count: u32,
    root: u32,
    entries: &[FuncId],
) -> Result<(), Memory>
    ensures { OnOk result (pairs.new.items
        ≡ spec.entries_joined count root entries.now pairs.old.items) }
{
    for f in entries {
        join(pairs, count, Some(root), Some(f.0))?;
    }
    Ok(())
}

// Which function may be called from which, and from the root, whose number comes after those of all functions.
fn call_pairs(
    alloc: Global,
    arena: &Arena,
    owners: &Owners,
    root: u32,
    entries: &[FuncId],
    calls: &[(u32, u32)],
) -> Result<Vec<(u32, u32)>, Memory>
    requires { root + 1 < 2 ^ 32 }
    ensures { IfOk result (λ pairs. pairs.items
        ≡ spec.call_pairs arena.now owners.now root entries.now calls.now) }
{
    let mut pairs = Vec::new(alloc);
    join_calls(&mut pairs, arena, owners, root, calls)?;
    join_entries(&mut pairs, root + 1, root, entries)?;
    Ok(pairs)
}

fn edges_of(alloc: Global, pairs: &[(u32, u32)]) -> Result<Vec<Edge>, AllocError>
    ensures { IfOk result (λ edges. edges.items ≡ map spec.edge_of pairs.now) }
{
    pairs
        .iter()
        .map(|pair| Edge {
            from: pair.0 as usize,
            to: pair.1 as usize,
        })
        .collect(alloc)
}

/// For each of so many functions whether it is live: an entry, or one that a call in a live one may call.
pub(crate) fn live_of(
    alloc: Global,
    arena: &Arena,
    owners: &Owners,
    functions: u32,
    entries: &[FuncId],
    calls: &[(u32, u32)],
) -> Result<Vec<bool>, Memory>
    requires { functions + 1 < 2 ^ 32 }
    ensures { IfOk result (λ live. spec.AreLive arena.now owners.now functions entries.now calls.now live.items) }
{
    let pairs = call_pairs(alloc, arena, owners, functions, entries, calls)?;
    let edges = edges_of(alloc, pairs.as_slice())?;
    let points = functions as usize + 1;
    let mut live = reachable(alloc, points, edges.as_slice(), functions as usize)?;
    live.truncate(functions as usize);
    Ok(live)
}
