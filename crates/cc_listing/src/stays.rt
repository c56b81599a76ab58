// Whether each point that comes next is a point.
ghost use Rattle.std.specs.Prelude.{◌≡◌, true, length};
ghost use Rattle.cc_flows.specs.Sweeping.{StaysWithin};
ghost use Rattle.cc_listing.specs.Stepping as spec;

use cc_base::List;

fn are_below(row: &[u32], count: u64) -> bool
    ensures { result ≡ spec.are_below count row.now }
{
    for q in row {
        if u64::from(*q) >= count {
            return false;
        }
    }
    true
}

fn all_below(rows: &[List<u32>], count: u64) -> bool
    ensures { result ≡ spec.all_below count rows.now }
{
    for row in rows {
        if !are_below(row.as_slice(), count) {
            return false;
        }
    }
    true
}

/// Whether each point that comes next is one of those that have a row.
pub fn stays(rows: &[List<u32>]) -> bool
    ensures { result ≡ true → StaysWithin rows.now }
{
    all_below(rows, rows.len() as u64)
}
