// The rows of all holders.
ghost use Rattle.std.specs.Prelude.{◌≡◌, ◌≢◌, ℕ, ◌+◌, ◌-◌, ◌<◌, ◌≤◌, ◌↔◌, max, length, [], IsTrue, IfSome, IfNone, IfOk, OnOk};
ghost use Rattle.cc_blocks.specs.Cells.{row_bit, row_size};
ghost use Rattle.cc_blocks.specs.Pairs.{pair_bit, pair_count};

use crate::row::Row;
use std::alloc::{AllocError, Global};
use std::mem;

/// A set of pairs of a holder and a target.
#[derive(Drop)]
pub struct Rows {
    pub rows: Vec<Row>,
}

impl Rows {
    /// No pairs, for holders below a number.
    pub fn new(alloc: Global, holders: u32) -> Result<Rows, AllocError>
        ensures holders { IfOk result (λ table. length table.rows.items ≡ holders) }
        ensures none { IfOk result (λ table. (holder target : ℕ) → pair_bit table.rows.items holder target ≡ 0) }
        ensures count { IfOk result (λ table. pair_count table.rows.items ≡ 0) }
    {
        let mut rows = Vec::new(alloc);
        for _ in 0..holders {
            rows.push(Row::new(alloc))?;
        }
        Ok(Rows { rows })
    }

    /// The targets of a holder.
    pub fn row(&self, holder: u32) -> &Row
        requires { holder < length self.now.rows.items }
        ensures { (target : ℕ) → row_bit result.now.cells.items target ≡ pair_bit self.now.rows.items holder target }
    {
        &self.rows[holder as usize]
    }

    /// Adds a pair, and tells whether it is new.
    pub fn add(&mut self, holder: u32, target: u32) -> Result<bool, AllocError>
        requires { holder < length self.old.rows.items }
        ensures holders { length self.new.rows.items ≡ length self.old.rows.items }
        ensures at { OnOk result (pair_bit self.new.rows.items holder target ≡ 1) }
        ensures others { OnOk result ((h t : ℕ) → (h ≡ holder → t ≢ target) → pair_bit self.new.rows.items h t ≡ pair_bit self.old.rows.items h t) }
        ensures new { IfOk result (λ new. IsTrue new ↔ (pair_bit self.old.rows.items holder target ≡ 0)) }
    {
        let new = self.rows[holder as usize].add(target)?;
        Ok(new)
    }

    /// Takes the targets of a holder out.
    pub fn take(&mut self, alloc: Global, holder: u32) -> Row
        requires { holder < length self.old.rows.items }
        ensures holders { length self.new.rows.items ≡ length self.old.rows.items }
        ensures row { (t : ℕ) → row_bit result.cells.items t ≡ pair_bit self.old.rows.items holder t }
        ensures at { (t : ℕ) → pair_bit self.new.rows.items holder t ≡ 0 }
        ensures others { (h t : ℕ) → h ≢ holder → pair_bit self.new.rows.items h t ≡ pair_bit self.old.rows.items h t }
    {
        mem::replace(&mut self.rows[holder as usize], Row::new(alloc))
    }

    /// Gives targets to a holder, and those that are new to the same holder of another table. Tells how many are new.
    pub fn give(&mut self, holder: u32, from: &Row, fresh: &mut Rows) -> Result<u64, AllocError>
        requires here { holder < length self.old.rows.items }
        requires there { holder < length fresh.old.rows.items }
        ensures holders { length self.new.rows.items ≡ length self.old.rows.items }
        ensures fresh_holders { length fresh.new.rows.items ≡ length fresh.old.rows.items }
        ensures at { OnOk result ((t : ℕ) → pair_bit self.new.rows.items holder t
            ≡ max (pair_bit self.old.rows.items holder t) (row_bit from.now.cells.items t)) }
        ensures others { OnOk result ((h t : ℕ) → h ≢ holder → pair_bit self.new.rows.items h t ≡ pair_bit self.old.rows.items h t) }
        ensures fresh_at { OnOk result ((t : ℕ) → pair_bit fresh.new.rows.items holder t
            ≡ max (pair_bit fresh.old.rows.items holder t) (row_bit from.now.cells.items t - pair_bit self.old.rows.items holder t)) }
        ensures fresh_others { OnOk result ((h t : ℕ) → h ≢ holder → pair_bit fresh.new.rows.items h t ≡ pair_bit fresh.old.rows.items h t) }
        ensures count { IfOk result (λ added. pair_count self.new.rows.items ≡ pair_count self.old.rows.items + added) }
        ensures some { IfOk result (λ added. 0 < added
            → (t : ℕ) × (row_bit from.now.cells.items t ≡ 1) × (pair_bit self.old.rows.items holder t ≡ 0)) }
        ensures none { IfOk result (λ added. added ≡ 0
            → (t : ℕ) → row_bit from.now.cells.items t ≤ pair_bit self.old.rows.items holder t) }
        ensures bound { IfOk result (λ added. added ≤ 4294967296) }
    {
        let added = self.rows[holder as usize].give(from, &mut fresh.rows[holder as usize])?;
        Ok(added)
    }

    /// Gives the targets of one holder to another one, and those that are new to the same holder of another table.
    pub fn flow(
        &mut self,
        alloc: Global,
        from: u32,
        to: u32,
        fresh: &mut Rows,
    ) -> Result<u64, AllocError>
        requires from { from < length self.old.rows.items }
        requires here { to < length self.old.rows.items }
        requires there { to < length fresh.old.rows.items }
        requires apart { from ≢ to }
        ensures holders { length self.new.rows.items ≡ length self.old.rows.items }
        ensures fresh_holders { length fresh.new.rows.items ≡ length fresh.old.rows.items }
        ensures at { OnOk result ((t : ℕ) → pair_bit self.new.rows.items to t
            ≡ max (pair_bit self.old.rows.items to t) (pair_bit self.old.rows.items from t)) }
        ensures others { OnOk result ((h t : ℕ) → h ≢ to → pair_bit self.new.rows.items h t ≡ pair_bit self.old.rows.items h t) }
        ensures fresh_at { OnOk result ((t : ℕ) → pair_bit fresh.new.rows.items to t
            ≡ max (pair_bit fresh.old.rows.items to t) (pair_bit self.old.rows.items from t - pair_bit self.old.rows.items to t)) }
        ensures fresh_others { OnOk result ((h t : ℕ) → h ≢ to → pair_bit fresh.new.rows.items h t ≡ pair_bit fresh.old.rows.items h t) }
        ensures count { IfOk result (λ added. pair_count self.new.rows.items ≡ pair_count self.old.rows.items + added) }
        ensures some { IfOk result (λ added. 0 < added
            → (t : ℕ) × (pair_bit self.old.rows.items from t ≡ 1) × (pair_bit self.old.rows.items to t ≡ 0)) }
        ensures none { IfOk result (λ added. added ≡ 0
            → (t : ℕ) → pair_bit self.old.rows.items from t ≤ pair_bit self.old.rows.items to t) }
        ensures bound { IfOk result (λ added. added ≤ 4294967296) }
    {
        let mut row = mem::replace(&mut self.rows[to as usize], Row::new(alloc));
        let added = row.give(&self.rows[from as usize], &mut fresh.rows[to as usize]);
        self.rows[to as usize] = row;
        Ok(added?)
    }
}
