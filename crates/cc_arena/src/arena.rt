// The arena.
ghost use Rattle.std.specs.Prelude.{◌≡◌, ◌<◌, ◌^◌, OnOk, IfOk, length, slice_get};
ghost use Rattle.cc_arena.specs.Arenas as spec;

use crate::node::{Node, Span};
use cc_base::{List, Memory, Spot};
use std::alloc::Global;

/// A node, the number of the node that it is a part of (its own for an external), and its place in its file.
#[derive(Clone, Copy)]
pub struct Placed {
    pub node: Node,
    pub parent: u32,
    pub spot: Spot,
}

/// The nodes of the project's files, each at its number; the lists of parts; the bytes of string literals. It takes fewer
/// than 2^30 of each.
#[derive(Drop)]
pub struct Arena {
    pub nodes: List<Placed>,
    pub lists: List<u32>,
    pub bytes: List<u8>,
}

// How many items a list of the arena has at most.
const MOST: u64 = (1 << 30) - 1;

impl Arena {
    /// No nodes. Takes no memory.
    pub fn new(alloc: Global) -> Arena
        ensures { result ≡ spec.no_nodes }
    {
        Arena {
            nodes: List::new(alloc),
            lists: List::new(alloc),
            bytes: List::new(alloc),
        }
    }

    /// Puts a node at the end, a part of the node `parent`. Fails where memory or numbers are wanting.
    pub fn push(&mut self, parent: u32, spot: Spot, node: Node) -> Result<(), Memory>
        ensures pushed { OnOk result (self.new ≡ spec.pushed parent spot node self.old) }
        ensures few { OnOk result (length self.new.nodes < 2 ^ 30) }
    {
        if self.nodes.len() >= MOST {
            return Err(Memory);
        }
        self.nodes.push(Placed { node, parent, spot })
    }

    /// Puts a number at the end of the lists. Fails where memory or numbers are wanting.
    pub fn push_number(&mut self, number: u32) -> Result<(), Memory>
        ensures { OnOk result (self.new ≡ spec.with_list (spec.only number) self.old) }
    {
        if self.lists.len() >= MOST {
            return Err(Memory);
        }
        self.lists.push(number)
    }

    /// Puts a byte at the end of the bytes. Fails where memory or numbers are wanting.
    pub fn push_byte(&mut self, byte: u8) -> Result<(), Memory>
        ensures { OnOk result (self.new ≡ spec.with_bytes (spec.only byte) self.old) }
    {
        if self.bytes.len() >= MOST {
            return Err(Memory);
        }
        self.bytes.push(byte)
    }

    /// How many nodes there are, which is the number of the next one.
    pub fn count(&self) -> Result<u32, Memory>
        ensures { IfOk result (λ n. n ≡ length self.now.nodes) }
    {
        small(self.nodes.len())
    }

    /// How many numbers stand in the lists.
    pub fn list_end(&self) -> Result<u32, Memory>
        ensures { IfOk result (λ n. n ≡ length self.now.lists) }
    {
        small(self.lists.len())
    }

    /// How many bytes there are.
    pub fn byte_end(&self) -> Result<u32, Memory>
        ensures { IfOk result (λ n. n ≡ length self.now.bytes) }
    {
        small(self.bytes.len())
    }

    /// What stands at a number. Takes no memory.
    pub fn placed_at(&self, number: u32) -> Option<Placed>
        ensures { result ≡ slice_get self.now.nodes number }
    {
        self.nodes.as_slice().get(number as usize).copied()
    }

    /// The node at a number. Takes no memory.
    pub fn node_at(&self, number: u32) -> Option<Node>
        ensures { result ≡ spec.node_of (slice_get self.now.nodes number) }
    {
        match self.placed_at(number) {
            Some(placed) => Some(placed.node),
            None => None,
        }
    }

    /// The number of the node that the one at this number is a part of; for an external its own. Takes no memory.
    pub fn parent_at(&self, number: u32) -> Option<u32>
        ensures { result ≡ spec.parent_of (slice_get self.now.nodes number) }
    {
        match self.placed_at(number) {
            Some(placed) => Some(placed.parent),
            None => None,
        }
    }

    /// The place of the node at a number. Takes no memory.
    pub fn spot_at(&self, number: u32) -> Option<Spot>
        ensures { result ≡ spec.spot_of (slice_get self.now.nodes number) }
    {
        match self.placed_at(number) {
            Some(placed) => Some(placed.spot),
            None => None,
        }
    }

    /// The numbers that stand in a stretch of the lists. Takes no memory.
    pub fn part_list(&self, span: Span) -> &[u32]
        ensures { result.now ≡ spec.stretch self.now.lists span }
    {
        stretch(self.lists.as_slice(), span)
    }

    /// The bytes that stand in a stretch of them. Takes no memory.
    pub fn byte_list(&self, span: Span) -> &[u8]
        ensures { result.now ≡ spec.stretch self.now.bytes span }
    {
        stretch(self.bytes.as_slice(), span)
    }
}

// A count as a number.
fn small(count: u64) -> Result<u32, Memory>
    ensures { IfOk result (λ n. n ≡ count) }
{
    if count > MOST {
        return Err(Memory);
    }
    Ok(count as u32)
}

// The items of a stretch, if there is such a one.
fn stretch<T>(items: &[T], span: Span) -> &[T]
    ensures { result.now ≡ spec.stretch items.now span }
{
    let start = span.start as usize;
    let end = span.end as usize;
    if start <= end && end <= items.len() {
        &items[start..end]
    } else {
        &[]
    }
}
