// How many targets and pairs there are, and the target of a place.
ghost use Rattle.std.specs.Prelude.{◌≡◌, ℕ, ◌+◌, ◌<◌, ◌≤◌, ◌^◌, take, IfSome, IfNone, slice_get};
ghost use Rattle.cc_blocks.specs.Cells.{row_bit, row_size, targets_below, has_bit};
ghost use Rattle.cc_blocks.specs.Pairs.{pair_count, count_in, has_pair};

use crate::row::Row;
use crate::table::Rows;

impl Row {
    /// How many targets the row has.
    pub fn count(&self) -> u64
        ensures count { result ≡ row_size self.now.cells.items }
        ensures bound { result ≤ 4294967296 }
    {
        let mut count: u64 = 0;
        for cell in &self.cells {
            count += u64::from(cell.block.count());
        }
        count
    }

    /// The target that so many others of the row are below.
    pub fn nth(&self, place: u64) -> Option<u32>
        ensures some { IfSome result (λ target. (row_bit self.now.cells.items target ≡ 1)
            × (targets_below self.now.cells.items target ≡ place)) }
        ensures none { IfNone result (row_size self.now.cells.items ≤ place) }
    {
        let mut left = place;
        let mut next = self.first_at_or_after(0);
        while let Some(target) = next {
            if left == 0 {
                return Some(target);
            }
            left -= 1;
            next = self.next_after(target);
        }
        None
    }
}

// Whether a row has a target.
fn row_has(row: &Row, target: u32) -> bool
    ensures { result ≡ has_bit row.now.cells.items target }
{
    row.has(target)
}

impl Rows {
    /// Whether a holder has a target; none has where it isn't in the table.
    pub fn has(&self, holder: u64, target: u32) -> bool
        ensures { result ≡ has_pair self.now.rows.items holder target }
    {
        match self.rows.get(holder as usize) {
            Some(row) => row_has(row, target),
            None => false,
        }
    }

    // How many targets a holder has.
    fn count_at(&self, holder: u64) -> u64
        ensures count { result ≡ count_in (slice_get self.now.rows.items holder) }
        ensures bound { result ≤ 4294967296 }
    {
        match self.rows.get(holder as usize) {
            Some(row) => row.count(),
            None => 0,
        }
    }

    /// How many pairs the holders below a number have, where the table has fewer than 2^31 holders.
    pub fn count_below(&self, holders: u64) -> u64
        requires { holders < 2 ^ 31 }
        ensures { result ≡ pair_count (take holders self.now.rows.items) }
    {
        let mut count: u64 = 0;
        for holder in 0..holders {
            count += self.count_at(holder);
        }
        count
    }
}
