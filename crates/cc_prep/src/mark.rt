// Places of a file.
ghost use Rattle.std.specs.Prelude.{◌≡◌, ◌≤◌, ◌<◌, ◌+◌, ◌-◌, ◌^◌, ℕ, List, length};
ghost use Rattle.cc_base.specs.Spots as spots;
ghost use Rattle.cc_prep.specs.Marks as spec;

use cc_base::Spot;

/// A place of a file.
#[derive(Clone, Copy)]
pub struct Mark {
    /// How many bytes stand before it.
    pub at: usize,
    /// Its line and column.
    pub spot: Spot,
}

// Where the byte behind these stands, if the first of them stands at `spot`.
fn spot_behind(mut spot: Spot, mut z: &[u8]) -> Spot
    requires line_fits { spot.line + length z.now < 2 ^ 32 - 1 }
    requires column_fits { spot.column + length z.now < 2 ^ 32 - 1 }
    ensures value { result ≡ spots.spot_behind spot z.entry.now }
    ensures line { result.line ≤ spot.line + length z.entry.now }
    ensures column { result.column ≤ spot.column + length z.entry.now }
{
    while let [b, rest @ ..] = z {
        spot = spot.next(*b);
        z = rest;
    }
    spot
}

impl Mark {
    ghost use Rattle.cc_prep.specs.Marks.{IsMark};

    /// The beginning of any file.
    pub fn start() -> Mark
        ensures value { result.at ≡ 0 }
        ensures mark { (bytes : List ℕ) → IsMark bytes result }
    {
        Mark {
            at: 0,
            spot: Spot::start(),
        }
    }

    /// The place before which `at` bytes of the file stand, not before this one.
    pub fn to(self, bytes: &[u8], at: usize) -> Mark
        requires small { length bytes.now ≤ 1048576 }
        requires here { IsMark bytes.now self }
        requires behind { self.at ≤ at }
        requires within { at ≤ length bytes.now }
        ensures value { result.at ≡ at }
        ensures mark { IsMark bytes.now result }
    {
        Mark {
            at,
            spot: spot_behind(self.spot, &bytes[self.at..at]),
        }
    }
}

/// The spot in a file of what stands at this spot of a part of it, if the part begins at `first`.
pub fn shifted(first: Spot, spot: Spot) -> Spot
    ensures { result ≡ spec.shifted first spot }
{
    if spot.line == 1 {
        Spot {
            line: first.line,
            column: first.column.saturating_add(spot.column).saturating_sub(1),
        }
    } else {
        Spot {
            line: first.line.saturating_add(spot.line).saturating_sub(1),
            column: spot.column,
        }
    }
}
