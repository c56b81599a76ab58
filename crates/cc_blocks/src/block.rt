// 512 bits as eight words.
ghost use Rattle.std.specs.Prelude.{◌≡◌, ◌<◌, ◌^◌, ℕ, length, slice_index};

use std::simd::prelude::*;

/// A set of numbers below 512.
#[derive(Clone, Copy, Debug)]
pub struct Block {
    pub lanes: u64x8,
    ghost eight: { length lanes ≡ 8 },
    ghost fits: { (j : ℕ) → slice_index lanes j < 2 ^ 64 },
}
