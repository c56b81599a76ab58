// The initialisers of pointers.
ghost use Rattle.std.specs.Prelude.{◌≡◌, ◌+◌, ◌<◌, ◌^◌, length, slice_get, OnOk};
ghost use Rattle.cc_points_view.specs.Initialisers as spec;

use crate::standing::Standing;
use cc_arena::{Node, Placed};
use cc_base::Memory;
use cc_parts::Parts;
use cc_points_base::{Class, Seen, What};
use cc_symbols::Slots;

fn is_braces(node: Node) -> bool
    ensures { result ≡ spec.is_braces node }
{
    matches!(node, Node::Braces(_))
}

// The pointer that an expression initialises.
fn pointer_cell(parts: &Parts, node: Node, standing: Option<Standing>) -> Option<u32>
    ensures { result ≡ spec.pointer_cell parts.now node standing }
{
    match standing {
        Some(standing) => match standing.cell {
            Some(q) => {
                if standing.is_evaluated
                    && !is_braces(node)
                    && q < parts.count()
                    && parts.is_pointer(q)
                {
                    Some(q)
                } else {
                    None
                }
            }
            None => None,
        },
        None => None,
    }
}

fn put_cell(nodes: &mut Slots<Seen>, cell: Option<u32>, n: u32) -> Result<(), Memory>
    ensures { OnOk result (nodes.new ≡ spec.with_cell cell n nodes.old) }
{
    match cell {
        Some(q) => nodes.push(Seen {
            what: What::Init(q, n),
            class: Class::Other,
            used: false,
        }),
        None => Ok(()),
    }
}

fn standing_at(standings: &[Standing], n: u32) -> Option<Standing>
    ensures { result ≡ slice_get standings.now n }
{
    standings.get(n as usize).copied()
}

// Puts the initialiser that a node is at the end, if it is one of a pointer.
fn put_one(
    nodes: &mut Slots<Seen>,
    parts: &Parts,
    standings: &[Standing],
    n: u32,
    placed: Option<Placed>,
) -> Result<(), Memory>
    ensures { OnOk result (nodes.new ≡ spec.with_one parts.now standings.now n placed nodes.old) }
{
    match placed {
        Some(placed) => {
            let cell = pointer_cell(parts, placed.node, standing_at(standings, n));
            put_cell(nodes, cell, n)?;
            Ok(())
        }
        None => Ok(()),
    }
}

fn placed_at(placed: &[Placed], n: u32) -> Option<Placed>
    ensures { result ≡ slice_get placed.now n }
{
    placed.get(n as usize).copied()
}

/// Puts the initialisers of pointers at the end, where these are the occurrences and what they have from the nodes around
/// them. Fails where memory is wanting.
pub fn put_initialisers(
    nodes: &mut Slots<Seen>,
    parts: &Parts,
    standings: &[Standing],
    placed: &[Placed],
) -> Result<(), Memory>
    requires { length placed.now < 2 ^ 32 }
    ensures { OnOk result (nodes.new ≡ spec.with_initialisers parts.now standings.now placed.now 0 nodes.old) }
{
    for n in 0..placed.len() as u32 {
        put_one(nodes, parts, standings, n, placed_at(placed, n))?;
    }
    Ok(())
}
