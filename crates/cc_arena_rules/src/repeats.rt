// Which names stand twice in one full expression.
ghost use Rattle.std.specs.Prelude.{◌≡◌, ◌+◌, ◌<◌, ◌^◌, [], length, IfOk};
ghost use Rattle.cc_arena_rules.specs.Looks.{nodes_in};
ghost use Rattle.cc_arena_rules.specs.Repeats as spec;

use crate::around::{Around, Extent};
use crate::inherit::around_at;
use crate::look::{named, nodes_in};
use cc_arena::{Arena, Node, Placed};
use cc_base::Memory;
use cc_symbols::{Slots, Symbols};
use std::alloc::Global;

/// A name that was met, by the number of its node, and the full expression that it stands in.
#[derive(Clone, Copy)]
pub(crate) struct Met {
    pub node: u32,
    pub whole: u32,
}

/// The last name of each declaration, by its number; and for each node of a stretch whether it is a name that stands twice in
/// a full expression.
#[derive(Drop)]
pub(crate) struct Meetings {
    pub last: Slots<Option<Met>>,
    pub flags: Slots<bool>,
}

fn mark(flags: &mut Slots<bool>, start: u32, n: u32)
    ensures { flags.new ≡ spec.marked start n flags.old }
{
    if start <= n {
        flags.put(n - start, true);
    }
}

// The node `n` is a name of what `met` was a name of, and stands in the full expression `whole`.
fn mark_both(flags: &mut Slots<bool>, start: u32, n: u32, whole: u32, met: Option<Met>)
    ensures { flags.new ≡ spec.both_marked start n whole met flags.old }
{
    match met {
        Some(met) => {
            if met.whole == whole {
                mark(flags, start, met.node);
                mark(flags, start, n);
            }
        }
        None => {}
    }
}

fn last_of(last: &Slots<Option<Met>>, d: u32) -> Option<Met>
    ensures { result ≡ spec.last_of last.now d }
{
    match last.get(d) {
        Some(met) => met,
        None => None,
    }
}

// The node `n`, in the full expression `whole`, is a name of the declaration `d`.
fn meet(meetings: &mut Meetings, start: u32, n: u32, whole: Option<u32>, d: Option<u32>)
    ensures { meetings.new ≡ spec.met start n whole d meetings.old }
{
    match (whole, d) {
        (Some(whole), Some(d)) => {
            let met = last_of(&meetings.last, d);
            mark_both(&mut meetings.flags, start, n, whole, met);
            meetings.last.put(d, Some(Met { node: n, whole }));
        }
        _ => {}
    }
}

// The full expression that a name stands in.
fn whole_of(node: Node, own: Option<Around>) -> Option<u32>
    ensures { result ≡ spec.whole_of node own }
{
    match (node, own) {
        (Node::Name, Some(own)) => whole_in(own.extent),
        _ => None,
    }
}

fn whole_in(extent: Extent) -> Option<u32>
    ensures { result ≡ spec.whole_in extent }
{
    match extent {
        Extent::Expression(whole) => Some(whole),
        _ => None,
    }
}

fn meet_all(
    meetings: &mut Meetings,
    symbols: &Symbols,
    around: &[Around],
    nodes: &[Placed],
    start: u32,
)
    requires { start + length nodes.now < 2 ^ 32 }
    ensures { meetings.new ≡ spec.met_from symbols.now around.now start nodes.now start meetings.old }
{
    let mut n = start;
    for placed in nodes {
        let whole = whole_of(placed.node, around_at(around, start, n));
        meet(meetings, start, n, whole, named(symbols, n));
        n += 1;
    }
}

// For each node of a stretch, whether it is a name and another name of the same declaration stands in the same full
// expression.
pub(crate) fn repeats(
    alloc: Global,
    arena: &Arena,
    symbols: &Symbols,
    around: &[Around],
    start: u32,
    end: u32,
) -> Result<Slots<bool>, Memory>
    ensures flags { IfOk result (λ flags. flags ≡ spec.repeats arena.now symbols.now around.now start end) }
    ensures exact { IfOk result (λ flags.
        spec.AreRepeats symbols.now around.now start (nodes_in arena.now start end) flags) }
{
    let nodes = nodes_in(arena, start, end);
    let mut last = Slots::new(alloc);
    last.grow(symbols.declared.count()?, None)?;
    let mut flags = Slots::new(alloc);
    flags.grow(nodes.len() as u32, false)?;
    let mut meetings = Meetings { last, flags };
    meet_all(&mut meetings, symbols, around, nodes, start);
    Ok(meetings.flags)
}
