// The loop that gives each node what it has from the nodes around it.
ghost use Rattle.std.specs.Prelude.{◌≡◌, ◌+◌, ◌<◌, ◌^◌, [], length, slice_get, IfOk};
ghost use Rattle.cc_arena_rules.specs.Inherited.{answer_at, inherited_from, IsInherited};
ghost use Rattle.cc_arena_rules.specs.Looks.{nodes_in, node_at};
ghost use Rattle.cc_arena_rules.specs.Surroundings as spec;

use crate::around::Around;
use crate::below::{
    begins_array, extent_in, is_addressed, is_value, may_be_null, may_break, may_continue,
    standing_in,
};
use crate::look::{is_array, nodes_in, type_at};
use cc_arena::{Arena, Node, Placed};
use cc_base::Memory;
use cc_symbols::{Findings, Slots, Symbols};
use std::alloc::Global;

// What the node `n`, which is `placed`, has below `above`, of which it is a part and which itself has `own`.
fn below(
    arena: &Arena,
    symbols: &Symbols,
    found: &Findings,
    above: Node,
    n: u32,
    placed: Placed,
    own: Around,
) -> Around
    ensures { result ≡ spec.below arena.now symbols.now found.now above n placed own }
{
    let used = is_value(found, above, n, own.is_value);
    Around {
        may_break: may_break(above, own.may_break),
        may_continue: may_continue(above, own.may_continue),
        standing: standing_in(above, n, own.standing),
        extent: extent_in(symbols, above, placed.parent, placed.node, n, own.extent),
        is_value: used,
        is_addressed: is_addressed(above, n, own.is_addressed),
        is_array: used && is_array(type_at(found, n)) || begins_array(above, own.is_array),
        may_be_null: may_be_null(arena, symbols, found, above, n, own.may_be_null),
    }
}

fn around_of(
    arena: &Arena,
    symbols: &Symbols,
    found: &Findings,
    n: u32,
    placed: Placed,
    own: Option<Around>,
) -> Around
    ensures { result ≡ spec.around_step arena.now symbols.now found.now n placed own }
{
    match (arena.node_at(placed.parent), own) {
        (Some(above), Some(own)) => below(arena, symbols, found, above, n, placed, own),
        _ => Around::outermost(),
    }
}

// The answer for the node `number`, where the answers begin with that for `start`.
pub(crate) fn around_at(done: &[Around], start: u32, number: u32) -> Option<Around>
    ensures { result ≡ answer_at done.now start number }
{
    if start <= number {
        done.get((number - start) as usize).copied()
    } else {
        None
    }
}

fn all_around(
    alloc: Global,
    arena: &Arena,
    symbols: &Symbols,
    found: &Findings,
    nodes: &[Placed],
    start: u32,
) -> Result<Slots<Around>, Memory>
    requires { start + length nodes.now < 2 ^ 32 }
    ensures { IfOk result (λ all.
        all ≡ inherited_from (spec.around_step arena.now symbols.now found.now) start nodes.now start []) }
{
    let mut all = Slots::new(alloc);
    let mut n = start;
    for placed in nodes {
        let own = around_at(all.as_slice(), start, placed.parent);
        all.push(around_of(arena, symbols, found, n, *placed, own))?;
        n += 1;
    }
    Ok(all)
}

/// For each node from `start` to before `end`, what it has from the nodes around it; nothing where the arena hasn't all of
/// them. The stretch is that of whole files. Fails where memory is wanting.
pub fn surroundings(
    alloc: Global,
    arena: &Arena,
    symbols: &Symbols,
    found: &Findings,
    start: u32,
    end: u32,
) -> Result<Slots<Around>, Memory>
    ensures all { IfOk result (λ all. all ≡ spec.surroundings arena.now symbols.now found.now start end) }
    ensures each { IfOk result (λ all.
        IsInherited (spec.around_step arena.now symbols.now found.now) start (nodes_in arena.now start end) all) }
{
    let all = all_around(
        alloc,
        arena,
        symbols,
        found,
        nodes_in(arena, start, end),
        start,
    )?;
    Ok(all)
}
