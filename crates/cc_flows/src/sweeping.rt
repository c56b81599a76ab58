// Which starts reach each point.
ghost use Rattle.std.specs.Prelude.{◌≡◌, ℕ, ◌+◌, ◌-◌, ◌<◌, ◌≤◌, ◌↔◌, ◌||◌, ◌∷◌, [], max, true, false, Some, Contains, IfOk, IsTrue, length, slice_get};
ghost use Rattle.cc_blocks.specs.Bits.{bit};
ghost use Rattle.cc_flows.specs.Sweeping.{StaysWithin, bit_at_point, Clear, IsDirty, dirty_count, room, Passes, Sweeps, Fits, Visits, Begins};

use cc_base::{List, Memory};
use cc_blocks::Block;
use std::alloc::Global;

/// Hands on what reaches a point to a point that comes next: adds to `next` the numbers of `reach` that are not in `clears`.
/// True exactly where one of them is new. Takes no memory.
pub fn pass_row(reach: &Block, clears: &Block, next: &mut Block) -> bool
    ensures bits { (i : ℕ)
        → bit next.new i ≡ max (bit next.old i) (bit reach.now i - bit clears.now i) }
    ensures grew { IsTrue result
        ↔ (i : ℕ) × (bit reach.now i ≡ 1) × (bit clears.now i ≡ 0) × (bit next.old i ≡ 0) }
{
    next.unite(&reach.minus(clears))
}

// Hands on to one point, which has to be visited again where it grew.
fn pass(reach: &mut Vec<Block>, dirty: &mut Vec<bool>, point: usize, row: &Block, clears: &Block)
    requires point { point < length reach.old.items }
    requires dirty { length dirty.old.items ≡ length reach.old.items }
    ensures { Passes reach.old.items reach.new.items dirty.old.items dirty.new.items (point ∷ [])
        (λ i. bit row.now i - bit clears.now i) }
{
    let mut next = reach[point];
    if pass_row(row, clears, &mut next) {
        reach[point] = next;
        dirty[point] = true;
    }
}

// Hands on to each of these points.
fn pass_all(
    reach: &mut Vec<Block>,
    dirty: &mut Vec<bool>,
    points: &[u32],
    row: &Block,
    clears: &Block,
)
    requires points { (point : ℕ) → Contains points.now point → point < length reach.old.items }
    requires dirty { length dirty.old.items ≡ length reach.old.items }
    ensures { Passes reach.old.items reach.new.items dirty.old.items dirty.new.items points.now
        (λ i. bit row.now i - bit clears.now i) }
{
    for point in points {
        pass(reach, dirty, *point as usize, row, clears);
    }
}

// Hands on from a point that grew. False where it did not grow since the last time.
fn visit(
    next: &[List<u32>],
    clears: &[Block],
    reach: &mut Vec<Block>,
    dirty: &mut Vec<bool>,
    point: usize,
) -> bool
    requires fits { Fits next.now clears.now reach.old.items dirty.old.items }
    requires point { point < length next.now }
    ensures visits { Visits next.now clears.now
        reach.old.items reach.new.items dirty.old.items dirty.new.items }
    ensures grew { result ≡ true → room reach.new.items + dirty_count dirty.new.items
        < room reach.old.items + dirty_count dirty.old.items }
    ensures idle { result ≡ false
        → (dirty.new.items ≡ dirty.old.items) × (IsDirty dirty.old.items point → ⊥) }
{
    if !dirty[point] {
        return false;
    }
    dirty[point] = false;
    let row = reach[point];
    pass_all(reach, dirty, next[point].as_slice(), &row, &clears[point]);
    true
}

// Visits a point, if there is one of this number.
fn visit_one(
    next: &[List<u32>],
    clears: &[Block],
    reach: &mut Vec<Block>,
    dirty: &mut Vec<bool>,
    point: usize,
)
    requires { Fits next.now clears.now reach.old.items dirty.old.items }
    ensures { Visits next.now clears.now
        reach.old.items reach.new.items dirty.old.items dirty.new.items }
{
    if point < next.len() {
        let _ = visit(next, clears, reach, dirty, point);
    }
}

// Visits these points, in their order.
fn visit_these(
    next: &[List<u32>],
    clears: &[Block],
    reach: &mut Vec<Block>,
    dirty: &mut Vec<bool>,
    points: &[u32],
)
    requires { Fits next.now clears.now reach.old.items dirty.old.items }
    ensures { Visits next.now clears.now
        reach.old.items reach.new.items dirty.old.items dirty.new.items }
{
    for point in points {
        visit_one(next, clears, reach, dirty, *point as usize);
    }
}

fn either(a: bool, b: bool) -> bool
    ensures { result ≡ (a || b) }
{
    a || b
}

// Visits all points. False where none of them had grown.
fn visit_all(
    next: &[List<u32>],
    clears: &[Block],
    reach: &mut Vec<Block>,
    dirty: &mut Vec<bool>,
) -> bool
    requires { Fits next.now clears.now reach.old.items dirty.old.items }
    ensures visits { Visits next.now clears.now
        reach.old.items reach.new.items dirty.old.items dirty.new.items }
    ensures grew { result ≡ true → room reach.new.items + dirty_count dirty.new.items
        < room reach.old.items + dirty_count dirty.old.items }
    ensures idle { result ≡ false → (point : ℕ) → IsDirty dirty.new.items point → ⊥ }
{
    let mut any = false;
    for point in 0..next.len() {
        let grew = visit(next, clears, reach, dirty, point);
        any = either(any, grew);
    }
    any
}

// Visits points until none of them grows: in this order, which may be any, and then all of them, again and again.
fn settle(
    next: &[List<u32>],
    order: &[u32],
    clears: &[Block],
    reach: &mut Vec<Block>,
    dirty: &mut Vec<bool>,
)
    requires { Fits next.now clears.now reach.old.items dirty.old.items }
    ensures visits { Visits next.now clears.now
        reach.old.items reach.new.items dirty.old.items dirty.new.items }
    ensures idle { (point : ℕ) → IsDirty dirty.new.items point → ⊥ }
{
    let mut busy = true;
    while busy {
        visit_these(next, clears, reach, dirty, order);
        busy = visit_all(next, clears, reach, dirty);
    }
}

/// So many empty sets.
pub fn empty_sets(alloc: Global, count: usize) -> Result<Vec<Block>, Memory>
    ensures long { IfOk result (λ blocks. length blocks.items ≡ count) }
    ensures none { IfOk result (λ blocks. (p i : ℕ) → bit_at_point blocks.items p i ≡ 0) }
{
    let mut blocks = Vec::new(alloc);
    for _block in 0..count {
        blocks.push(Block::new())?;
    }
    Ok(blocks)
}

// The set of one number.
fn only(i: u32) -> Block
    requires { i < 512 }
    ensures at { bit result i ≡ 1 }
    ensures others { (k : ℕ) → (k ≡ i → ⊥) → bit result k ≡ 0 }
{
    let mut block = Block::new();
    block.set(i);
    block
}

// Hands on from the starts: number i stands for start i.
fn begin(next: &[List<u32>], starts: &[u32], reach: &mut Vec<Block>, dirty: &mut Vec<bool>)
    requires next { StaysWithin next.now }
    requires reach { length reach.old.items ≡ length next.now }
    requires dirty { length dirty.old.items ≡ length next.now }
    requires starts { (start : ℕ) → Contains starts.now start → start < length next.now }
    requires count { length starts.now ≤ 512 }
    ensures { Begins next.now starts.now (length starts.now)
        reach.old.items reach.new.items dirty.old.items dirty.new.items }
{
    let none = Block::new();
    for (i, start) in starts.iter().enumerate() {
        let block = only(i as u32);
        pass_all(
            reach,
            dirty,
            next[*start as usize].as_slice(),
            &block,
            &none,
        );
    }
}

/// Which starts reach each point over one step or more, where no point that lies between clears the start. Number i of a
/// point's set stands for start i. The order in which points are visited may be any; [`crate::order_of`] gives one in
/// which few points are visited again.
pub fn sweep(
    alloc: Global,
    next: &[List<u32>],
    order: &[u32],
    clears: &[Block],
    starts: &[u32],
) -> Result<Vec<Block>, Memory>
    requires next { StaysWithin next.now }
    requires clears { length clears.now ≡ length next.now }
    requires starts { (start : ℕ) → Contains starts.now start → start < length next.now }
    requires count { length starts.now ≤ 512 }
    ensures exact { IfOk result (λ reach. (point i : ℕ) → (bit_at_point reach.items point i ≡ 1)
        ↔ (start : ℕ) × (slice_get starts.now i ≡ Some start)
        × Clear next.now clears.now i start point) }
{
    let mut reach = empty_sets(alloc, next.len())?;
    let mut dirty = vec![in alloc; false; next.len()]?;
    begin(next, starts, &mut reach, &mut dirty);
    settle(next, order, clears, &mut reach, &mut dirty);
    Ok(reach)
}
