// Which of 512 starts reaches each point.
ghost use Rattle.std.specs.Prelude.{◌≡◌, ℕ, ◌<◌, ◌≤◌, ◌↔◌, ◌∷◌, [], All, Some, Contains, IfOk, OnOk, length, slice_get};
ghost use Rattle.cc_blocks.specs.Bits.{bit};
ghost use Rattle.cc_blocks.specs.Sweeping.{HasEdge, StaysWithin, bit_at_point, Clear, Passes};

use crate::block::Block;
use std::alloc::{AllocError, Global};

/// Which starts reach each point over one edge or more, where no point that lies between clears the start. Bit i of a
/// point stands for start i.
pub fn sweep(
    alloc: Global,
    next: &[Vec<usize>],
    clears: &[Block],
    starts: &[usize],
) -> Result<Vec<Block>, AllocError>
    requires next { StaysWithin next.now }
    requires clears { length clears.now ≡ length next.now }
    requires starts { (start : ℕ) → Contains starts.now start → start < length next.now }
    requires count { length starts.now ≤ 512 }
    ensures exact { IfOk result (λ reach. (point i : ℕ) → (bit_at_point reach.items point i ≡ 1)
        ↔ (start : ℕ) × (slice_get starts.now i ≡ Some start) × Clear next.now clears.now i start point) }
{
    let mut reach = Vec::new(alloc);
    for _ in 0..next.len() {
        reach.push(Block::new())?;
    }
    let mut work = Vec::new(alloc);
    for (i, start) in starts.iter().enumerate() {
        let mut block = Block::new();
        block.set(i as u32);
        pass_all(&mut reach, &mut work, &next[*start], &block)?;
    }
    while let Some(point) = work.pop() {
        let block = reach[point].minus(&clears[point]);
        pass_all(&mut reach, &mut work, &next[point], &block)?;
    }
    Ok(reach)
}

// Adds the bits to these points.
fn pass_all(
    reach: &mut Vec<Block>,
    work: &mut Vec<usize>,
    points: &[usize],
    block: &Block,
) -> Result<(), AllocError>
    requires { (point : ℕ) → Contains points.now point → point < length reach.old.items }
    ensures { OnOk result (Passes reach.old.items reach.new.items work.old.items work.new.items points.now (bit block.now)) }
{
    for point in points {
        pass(reach, work, *point, block)?;
    }
    Ok(())
}

// Adds the bits to a point, and puts it to the work if one of them is new.
fn pass(
    reach: &mut Vec<Block>,
    work: &mut Vec<usize>,
    point: usize,
    block: &Block,
) -> Result<(), AllocError>
    requires { point < length reach.old.items }
    ensures { OnOk result (Passes reach.old.items reach.new.items work.old.items work.new.items (point ∷ []) (bit block.now)) }
{
    let mut row = reach[point];
    if row.unite(block) {
        reach[point] = row;
        work.push(point)?;
    }
    Ok(())
}
