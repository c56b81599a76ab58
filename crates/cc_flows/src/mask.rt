// Which of 512 definitions are of a slot, and which of them a point clears.
ghost use Rattle.std.specs.Prelude.{◌≡◌, ◌↔◌, ◌<◌, ◌≤◌, ℕ, Contains, IfOk, length, slice_get, []};
ghost use Rattle.cc_blocks.specs.Bits.{bit};
ghost use Rattle.cc_flows.specs.Sweeping.{bit_at_point};
ghost use Rattle.cc_flows.specs.Masks.{IsOf, IsWiped, row_of, points_of};

use crate::sweeping::empty_sets;
use cc_base::{List, Memory};
use cc_blocks::Block;
use std::alloc::Global;

/// A definition or a read of a slot at a point.
#[derive(Clone, Copy)]
pub struct Touch {
    /// The point.
    pub point: u32,
    /// The slot, or another number by which definitions and reads are matched.
    pub slot: u32,
    /// The node that defines or reads, or another number by which it is known.
    pub node: u32,
    /// What a definition is of. No matter for a read.
    pub object: u32,
}

/// For each slot which definitions are of it.
pub fn masks(alloc: Global, slots: usize, definitions: &[Touch]) -> Result<Vec<Block>, Memory>
    requires count { length definitions.now ≤ 512 }
    requires slots { (d : Touch) → Contains definitions.now d → d.slot < slots }
    ensures exact { IfOk result (λ masks. (s i : ℕ)
        → (bit_at_point masks.items s i ≡ 1) ↔ IsOf definitions.now s i) }
{
    let mut masks = empty_sets(alloc, slots)?;
    for (i, definition) in definitions.iter().enumerate() {
        let slot = definition.slot as usize;
        let mut block = masks[slot];
        block.set(i as u32);
        masks[slot] = block;
    }
    Ok(masks)
}

fn find(blocks: &[Block], at: usize) -> Option<Block>
    ensures { result ≡ slice_get blocks.now at }
{
    blocks.get(at).copied()
}

/// The set of a number; where there is none, an empty one.
pub fn block_at(blocks: &[Block], at: usize) -> Block
    ensures { (i : ℕ) → bit result i ≡ bit_at_point blocks.now at i }
{
    match find(blocks, at) {
        Some(block) => block,
        None => Block::new(),
    }
}

// Which definitions are of one of these slots.
fn clear_of(row: &[u32], masks: &[Block]) -> Block
    ensures { (i : ℕ) → (bit result i ≡ 1) ↔ IsWiped masks.now row.now i }
{
    let mut block = Block::new();
    for slot in row {
        let mask = block_at(masks, *slot as usize);
        block.unite(&mask);
    }
    block
}

/// For each point which definitions it clears.
pub fn clears(alloc: Global, wipes: &[List<u32>], masks: &[Block]) -> Result<Vec<Block>, Memory>
    ensures long { IfOk result (λ clears. length clears.items ≡ length wipes.now) }
    ensures exact { IfOk result (λ clears. (p i : ℕ)
        → (bit_at_point clears.items p i ≡ 1) ↔ IsWiped masks.now (row_of wipes.now p) i) }
{
    let mut clears = Vec::new(alloc);
    for row in wipes {
        clears.push(clear_of(row.as_slice(), masks))?;
    }
    Ok(clears)
}

/// The points of definitions.
pub fn points(alloc: Global, definitions: &[Touch]) -> Result<Vec<u32>, Memory>
    ensures { IfOk result (λ points. points.items ≡ points_of definitions.now []) }
{
    let mut points = Vec::new(alloc);
    for definition in definitions {
        points.push(definition.point)?;
    }
    Ok(points)
}
