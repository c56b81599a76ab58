// The targets of one holder.
ghost use Rattle.std.specs.Prelude.{◌≡◌, ◌≢◌, ℕ, ◌+◌, ◌-◌, ◌*◌, ◌/◌, ◌%◌, ◌<◌, ◌≤◌, ◌↔◌, min, max, length, [], IsTrue, IfSome, IfNone, IfOk, OnOk, OnErr};
ghost use Rattle.cc_blocks.specs.Bits.{bit, size};
ghost use Rattle.cc_blocks.specs.Cells.{block_bit, row_bit, row_size, AreAscending, AreAscending-IsProp, rank_of};

use crate::block::Block;
use crate::cell::Cell;
use std::alloc::{AllocError, Global};

/// A set of targets, which are numbers below 2^32.
#[derive(Drop)]
pub struct Row {
    pub cells: Vec<Cell>,
    ghost ascending: { AreAscending 0 cells.items } by { AreAscending-IsProp 0 cells.items },
}

// How many cells come before the one of this number.
fn rank(cells: &[Cell], number: u32) -> usize
    requires { AreAscending 0 cells.now }
    ensures within { result ≤ length cells.now }
    ensures rank { result ≡ rank_of cells.now number }
{
    let mut low = 0;
    let mut high = cells.len();
    while low < high {
        let middle = low + (high - low) / 2;
        if cells[middle].number < number {
            low = middle + 1;
        } else {
            high = middle;
        }
    }
    low
}

// What the row has of the block of this number.
fn block_at(cells: &[Cell], number: u32) -> Block
    requires { AreAscending 0 cells.now }
    ensures { (target : ℕ) → target / 512 ≡ number → bit result (target % 512) ≡ row_bit cells.now target }
{
    let at = rank(cells, number);
    if at < cells.len() {
        let cell = &cells[at];
        if cell.number == number {
            return cell.block;
        }
    }
    Block::new()
}

impl Row {
    /// The empty row.
    pub fn new(alloc: Global) -> Row
        ensures { result.cells.items ≡ [] }
    {
        Row {
            cells: Vec::new(alloc),
        }
    }

    /// Whether the row has the target.
    pub fn has(&self, target: u32) -> bool
        ensures { IsTrue result ↔ (row_bit self.now.cells.items target ≡ 1) }
    {
        block_at(&self.cells, target / 512).has(target % 512)
    }

    /// Adds a target, and tells whether it is new.
    pub fn add(&mut self, target: u32) -> Result<bool, AllocError>
        ensures at { OnOk result (row_bit self.new.cells.items target ≡ 1) }
        ensures others { OnOk result ((t : ℕ) → t ≢ target → row_bit self.new.cells.items t ≡ row_bit self.old.cells.items t) }
        ensures new { IfOk result (λ new. IsTrue new ↔ (row_bit self.old.cells.items target ≡ 0)) }
        ensures err { OnErr result (self.new.cells.items ≡ self.old.cells.items) }
    {
        let mut block = Block::new();
        block.set(target % 512);
        Ok(self.add_block(target / 512, &block)? != 0)
    }

    /// Adds the targets of a block, and tells how many are new.
    pub fn add_block(&mut self, number: u32, block: &Block) -> Result<u32, AllocError>
        requires { number < 8388608 }
        ensures ok { OnOk result ((target : ℕ) → row_bit self.new.cells.items target
            ≡ max (row_bit self.old.cells.items target) (block_bit number block.now target)) }
        ensures count { IfOk result (λ added. row_size self.new.cells.items ≡ row_size self.old.cells.items + added) }
        ensures some { IfOk result (λ added. 0 < added
            → (target : ℕ) × (block_bit number block.now target ≡ 1) × (row_bit self.old.cells.items target ≡ 0)) }
        ensures none { IfOk result (λ added. added ≡ 0
            → (target : ℕ) → block_bit number block.now target ≤ row_bit self.old.cells.items target) }
        ensures bound { IfOk result (λ added. added ≤ 512) }
        ensures err { OnErr result (self.new.cells.items ≡ self.old.cells.items) }
    {
        let at = rank(&self.cells, number);
        if at < self.cells.len() && self.cells[at].number == number {
            let mut joined = self.cells[at].block;
            let more = block.minus(&joined);
            joined.unite(&more);
            self.cells[at] = Cell {
                number,
                block: joined,
            };
            return Ok(more.count());
        }
        self.cells.insert(
            at,
            Cell {
                number,
                block: *block,
            },
        )?;
        Ok(block.count())
    }

    /// Adds the targets of another row, and those that are new to a third row too. Tells how many are new.
    pub fn give(&mut self, from: &Row, fresh: &mut Row) -> Result<u64, AllocError>
        ensures targets { OnOk result ((target : ℕ) → row_bit self.new.cells.items target
            ≡ max (row_bit self.old.cells.items target) (row_bit from.now.cells.items target)) }
        ensures fresh { OnOk result ((target : ℕ) → row_bit fresh.new.cells.items target
            ≡ max (row_bit fresh.old.cells.items target)
            (row_bit from.now.cells.items target - row_bit self.old.cells.items target)) }
        ensures count { IfOk result (λ added. row_size self.new.cells.items ≡ row_size self.old.cells.items + added) }
        ensures some { IfOk result (λ added. 0 < added
            → (target : ℕ) × (row_bit from.now.cells.items target ≡ 1) × (row_bit self.old.cells.items target ≡ 0)) }
        ensures none { IfOk result (λ added. added ≡ 0
            → (target : ℕ) → row_bit from.now.cells.items target ≤ row_bit self.old.cells.items target) }
        ensures bound { IfOk result (λ added. added ≤ 4294967296) }
    {
        let mut added = 0;
        for cell in &from.cells {
            added += u64::from(self.give_block(cell.number, &cell.block, fresh)?);
        }
        Ok(added)
    }

    // Adds the targets of a block, and those that are new to another row too.
    fn give_block(&mut self, number: u32, block: &Block, fresh: &mut Row) -> Result<u32, AllocError>
        requires { number < 8388608 }
        ensures targets { OnOk result ((target : ℕ) → row_bit self.new.cells.items target
            ≡ max (row_bit self.old.cells.items target) (block_bit number block.now target)) }
        ensures fresh { OnOk result ((target : ℕ) → row_bit fresh.new.cells.items target
            ≡ max (row_bit fresh.old.cells.items target)
            (block_bit number block.now target - row_bit self.old.cells.items target)) }
        ensures count { IfOk result (λ added. row_size self.new.cells.items ≡ row_size self.old.cells.items + added) }
        ensures some { IfOk result (λ added. 0 < added
            → (target : ℕ) × (block_bit number block.now target ≡ 1) × (row_bit self.old.cells.items target ≡ 0)) }
        ensures none { IfOk result (λ added. added ≡ 0
            → (target : ℕ) → block_bit number block.now target ≤ row_bit self.old.cells.items target) }
        ensures bound { IfOk result (λ added. added ≤ 512) }
    {
        let more = block.minus(&block_at(&self.cells, number));
        if more.is_empty() {
            return Ok(0);
        }
        let added = self.add_block(number, &more)?;
        fresh.add_block(number, &more)?;
        Ok(added)
    }

    /// The least target of the row from a number on.
    pub fn first_at_or_after(&self, start: u32) -> Option<u32>
        ensures some { IfSome result (λ first. (start ≤ first) × (row_bit self.now.cells.items first ≡ 1)
            × ((target : ℕ) → start ≤ target → target < first → row_bit self.now.cells.items target ≡ 0)) }
        ensures none { IfNone result ((target : ℕ) → start ≤ target → row_bit self.now.cells.items target ≡ 0) }
    {
        let number = start / 512;
        let mut at = rank(&self.cells, number);
        while at < self.cells.len() {
            let cell = &self.cells[at];
            let low = if cell.number == number {
                start % 512
            } else {
                0
            };
            if let Some(i) = cell.block.first_at_or_after(low) {
                return Some(cell.number * 512 + i);
            }
            at += 1;
        }
        None
    }

    /// The least target of the row above a number.
    pub fn next_after(&self, target: u32) -> Option<u32>
        ensures some { IfSome result (λ next. (target < next) × (row_bit self.now.cells.items next ≡ 1)
            × ((t : ℕ) → target < t → t < next → row_bit self.now.cells.items t ≡ 0)) }
        ensures none { IfNone result ((t : ℕ) → target < t → row_bit self.now.cells.items t ≡ 0) }
    {
        match target.checked_add(1) {
            Some(start) => self.first_at_or_after(start),
            None => None,
        }
    }
}
