// What a block does.
ghost use Rattle.std.specs.Prelude.{◌≡◌, ◌≢◌, ℕ, ◌+◌, ◌-◌, ◌<◌, ◌≤◌, ◌↔◌, min, max, length, IsTrue, IfSome, IfNone};
ghost use Rattle.cc_blocks.specs.Bits.{bit, size};

use crate::block::Block;
use std::simd::prelude::*;

impl Block {
    /// The empty set.
    pub fn new() -> Block
        ensures { (i : ℕ) → bit result i ≡ 0 }
    {
        Block {
            lanes: u64x8::splat(0),
        }
    }

    /// Whether the number is in the set.
    pub fn has(&self, i: u32) -> bool
        requires { i < 512 }
        ensures { IsTrue result ↔ (bit self.now i ≡ 1) }
    {
        self.lanes[i as usize / 64] >> (i % 64) & 1 == 1
    }

    /// Adds the number.
    pub fn set(&mut self, i: u32)
        requires { i < 512 }
        ensures at { bit self.new i ≡ 1 }
        ensures others { (k : ℕ) → k ≢ i → bit self.new k ≡ bit self.old k }
    {
        let mut lanes = self.lanes.to_array();
        lanes[i as usize / 64] |= 1 << (i % 64);
        self.lanes = u64x8::from_array(lanes);
    }

    /// Adds the numbers of the other set. True exactly where one of them is new.
    pub fn unite(&mut self, from: &Block) -> bool
        ensures bits { (i : ℕ) → bit self.new i ≡ max (bit self.old i) (bit from.now i) }
        ensures grew { IsTrue result ↔ (i : ℕ) × (bit from.now i ≡ 1) × (bit self.old i ≡ 0) }
    {
        let old = self.lanes;
        let joined = old | from.lanes;
        self.lanes = joined;
        (joined ^ old).reduce_or() != 0
    }

    /// The numbers that are here and not in the other set.
    pub fn minus(&self, from: &Block) -> Block
        ensures { (i : ℕ) → bit result i ≡ bit self.now i - bit from.now i }
    {
        Block {
            lanes: self.lanes ^ (self.lanes & from.lanes),
        }
    }

    /// Whether no number is in the set.
    pub fn is_empty(&self) -> bool
        ensures { IsTrue result ↔ ((i : ℕ) → bit self.now i ≡ 0) }
    {
        self.lanes.reduce_or() == 0
    }

    /// How many numbers are in the set.
    pub fn count(&self) -> u32
        ensures { result ≡ size self.now }
    {
        let mut count = 0;
        for k in 0..8 {
            count += self.lanes[k].count_ones();
        }
        count
    }

    /// The least number of the set that is at least `start`.
    pub fn first_at_or_after(&self, start: u32) -> Option<u32>
        ensures some { IfSome result (λ i. (start ≤ i) × (i < 512) × (bit self.now i ≡ 1) × ((k : ℕ) → start ≤ k → k < i → bit self.now k ≡ 0)) }
        ensures none { IfNone result ((k : ℕ) → start ≤ k → bit self.now k ≡ 0) }
    {
        let mut from = start;
        while from < 512 {
            let left = self.lanes[from as usize / 64] >> (from % 64);
            if left != 0 {
                return Some(from + left.trailing_zeros());
            }
            from = (from / 64 + 1) * 64;
        }
        None
    }
}
