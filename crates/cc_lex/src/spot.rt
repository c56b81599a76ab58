// Lines and columns.
ghost use Rattle.std.specs.Prelude.{◌≡◌, ◌≤◌, ◌<◌, ◌+◌, ◌-◌, ◌^◌, length, take, count_by};
ghost use Rattle.cc_base.specs.Spots.{spot_behind};
ghost use Rattle.cc_lex.specs.Spots.{spot_at, is_feed, behind_last};

use cc_base::Spot;

/// Where the byte behind these stands, if the first of them stands at `spot`.
pub fn spot_after(mut spot: Spot, mut z: &[u8]) -> Spot
    requires line_fits { spot.line + length z.now < 2 ^ 32 - 1 }
    requires column_fits { spot.column + length z.now < 2 ^ 32 - 1 }
    ensures value { result ≡ spot_behind spot z.entry.now }
    ensures line { result.line ≤ spot.line + length z.entry.now }
    ensures column { result.column ≤ spot.column + length z.entry.now }
{
    while let [b, rest @ ..] = z {
        spot = spot.next(*b);
        z = rest;
    }
    spot
}

/// The line and the column of the byte at the offset, both from 1, the column in bytes. Takes no memory.
#[tactic(auto, using(crate::proofs::SpotLemmas::spot_laws))]
pub fn spot_of(bytes: &[u8], offset: u64) -> Spot
    requires small { length bytes.now ≤ 1048576 }
    requires within { offset ≤ length bytes.now }
    ensures value { result ≡ spot_at bytes.now offset }
    ensures line { result.line ≡ 1 + count_by is_feed (take offset bytes.now) }
    ensures column { result.column ≡ 1 + length (behind_last (take offset bytes.now)) }
{
    spot_after(Spot::start(), &bytes[..offset as usize])
}
