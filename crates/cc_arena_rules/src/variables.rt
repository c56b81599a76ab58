// Of which variables the address is taken.
ghost use Rattle.std.specs.Prelude.{◌≡◌, ◌+◌, ◌<◌, ◌^◌, length, OnOk, IfOk};
ghost use Rattle.cc_arena_rules.specs.Inherited.{answer_at};
ghost use Rattle.cc_arena_rules.specs.Looks.{nodes_in, named};
ghost use Rattle.cc_arena_rules.specs.Variables as spec;

use crate::around::Around;
use crate::inherit::around_at;
use crate::look::{named, nodes_in};
use cc_arena::{Arena, Node, Placed};
use cc_base::Memory;
use cc_symbols::{Slots, Symbols};
use std::alloc::Global;

// Whether a node takes the address of what it names.
fn takes(node: Node, own: Option<Around>) -> bool
    ensures { result ≡ spec.takes node own }
{
    match (node, own) {
        (Node::Name, Some(own)) => own.is_addressed || own.is_array,
        _ => false,
    }
}

fn mark(flags: &mut Slots<bool>, declaration: Option<u32>)
    ensures { flags.new ≡ spec.marked declaration flags.old }
{
    match declaration {
        Some(d) => flags.put(d, true),
        None => {}
    }
}

fn mark_if(flags: &mut Slots<bool>, takes: bool, declaration: Option<u32>)
    ensures { flags.new ≡ spec.marked_if takes declaration flags.old }
{
    if takes {
        mark(flags, declaration);
    }
}

fn mark_all(
    flags: &mut Slots<bool>,
    symbols: &Symbols,
    around: &[Around],
    nodes: &[Placed],
    start: u32,
)
    requires { start + length nodes.now < 2 ^ 32 }
    ensures { flags.new ≡ spec.taken_from symbols.now around.now start nodes.now start flags.old }
{
    let mut n = start;
    for placed in nodes {
        let takes = takes(placed.node, around_at(around, start, n));
        mark_if(flags, takes, named(symbols, n));
        n += 1;
    }
}

/// For each declaration, by number, whether the address of the variable is taken in the nodes from `start` to before `end`,
/// whose surroundings are `around`: its name, alone or followed by `.` and subscripts, is the operand of `&`, parentheses
/// aside; or an array part of it is used as a value or subscripted. Operands that aren't evaluated count too. Fails where
/// memory is wanting.
pub fn taken(
    alloc: Global,
    arena: &Arena,
    symbols: &Symbols,
    around: &[Around],
    start: u32,
    end: u32,
) -> Result<Slots<bool>, Memory>
    ensures flags { IfOk result (λ flags. flags ≡ spec.taken arena.now symbols.now around.now start end) }
    ensures taken { IfOk result (λ flags.
        spec.AreTaken symbols.now around.now start (nodes_in arena.now start end) flags) }
{
    let mut flags = Slots::new(alloc);
    flags.grow(symbols.declared.count()?, false)?;
    mark_all(
        &mut flags,
        symbols,
        around,
        nodes_in(arena, start, end),
        start,
    );
    Ok(flags)
}
