// What stands inside the parentheses of each node, and which nodes are lvalues by name.
ghost use Rattle.std.specs.Prelude.{◌≡◌, ◌+◌, ◌<◌, ◌^◌, drop, length, slice_get, IfOk};
ghost use Rattle.cc_uses.specs.Peeling as spec;

use cc_arena::{Node, Placed};
use cc_base::Memory;
use cc_symbols::Slots;
use std::alloc::Global;

/// A node, parentheses aside.
#[derive(Clone, Copy)]
pub struct Peeled {
    /// The node inside its parentheses; the node itself where it has none around it.
    pub inner: u32,
    /// Whether it is a name with `.` members only.
    pub by_name: bool,
}

fn peeled_at(peeled: &[Peeled], n: u32) -> Option<Peeled>
    ensures { result ≡ slice_get peeled.now n }
{
    peeled.get(n as usize).copied()
}

// What is known of the part `e` of the node `n`: parts have greater numbers.
fn part_of(peeled: &[Peeled], n: u32, e: u32) -> Option<Peeled>
    ensures { result ≡ spec.part_in n e (drop (n + 1) peeled.now) }
{
    if n < e { peeled_at(peeled, e) } else { None }
}

fn inner_in(n: u32, part: Option<Peeled>) -> u32
    ensures { result ≡ spec.inner_in n part }
{
    match part {
        Some(part) => part.inner,
        None => n,
    }
}

fn is_by_name(part: Option<Peeled>) -> bool
    ensures { result ≡ spec.is_by_name part }
{
    match part {
        Some(part) => part.by_name,
        None => false,
    }
}

/// The node inside the parentheses that stand at `n`, if any do.
pub(crate) fn inner_at(peeled: &[Peeled], n: u32) -> u32
    ensures { result ≡ spec.inner_at peeled.now n }
{
    inner_in(n, peeled_at(peeled, n))
}

// The node `n`, where the nodes that come after it are known.
fn peel(peeled: &[Peeled], n: u32, node: Node) -> Peeled
    ensures { result ≡ spec.peel n node (drop (n + 1) peeled.now) }
{
    match node {
        Node::Name => Peeled {
            inner: n,
            by_name: true,
        },
        Node::Paren(e) => {
            let part = part_of(peeled, n, e);
            Peeled {
                inner: inner_in(n, part),
                by_name: is_by_name(part),
            }
        }
        Node::Member(e) => Peeled {
            inner: n,
            by_name: is_by_name(part_of(peeled, n, e)),
        },
        _ => Peeled {
            inner: n,
            by_name: false,
        },
    }
}

fn placed_at(nodes: &[Placed], n: u32) -> Option<Placed>
    ensures { result ≡ slice_get nodes.now n }
{
    nodes.get(n as usize).copied()
}

fn put_peeled(peeled: &mut Slots<Peeled>, n: u32, placed: Option<Placed>)
    ensures { peeled.new ≡ spec.with_peeled n placed peeled.old }
{
    match placed {
        Some(placed) => {
            let it = peel(peeled.as_slice(), n, placed.node);
            peeled.put(n, it);
        }
        None => {}
    }
}

/// All nodes, parentheses aside. Goes from the last to the first, since parts have greater numbers. Fails where memory is
/// wanting.
pub(crate) fn peel_all(alloc: Global, nodes: &[Placed]) -> Result<Slots<Peeled>, Memory>
    requires { length nodes.now < 2 ^ 32 }
    ensures { IfOk result (λ all. all ≡ spec.peeled nodes.now 0) }
{
    let count = nodes.len() as u32;
    let mut all = Slots::new(alloc);
    all.grow(
        count,
        Peeled {
            inner: 0,
            by_name: false,
        },
    )?;
    for n in (0..count).rev() {
        put_peeled(&mut all, n, placed_at(nodes, n));
    }
    Ok(all)
}
