// How many control points a program of the first form has.
ghost use Rattle.std.specs.Prelude.{◌≡◌};
ghost use Rattle.cc_first.specs.Views.{part_view, parts_view};
ghost use Rattle.cc_first_list.specs.Points as spec;

use cc_first::Part;

/// The most control points that a program may have.
pub const MOST_POINTS: u64 = 262_144;

// A sum; 2^64 - 1 stands for that much or more.
fn sum(a: u64, b: u64) -> u64
    ensures { result ≡ spec.sum a b }
{
    a.saturating_add(b)
}

// So many points, and those of a part.
fn with_part(count: u64, part: &Part<'_>) -> u64
    ensures { result ≡ spec.with_part count (part_view part.now) }
{
    match part {
        Part::Declaration(_) => count,
        Part::Definition(_, calls) => {
            let inner = (calls.len() as u64).saturating_mul(7);
            sum(sum(count, 4), inner)
        }
    }
}

// So many points, and those of parts.
fn with_parts(count: u64, parts: &[Part<'_>]) -> u64
    ensures { result ≡ spec.with_parts count (parts_view parts.now) }
{
    let mut sum = count;
    for part in parts {
        sum = with_part(sum, part);
    }
    sum
}

/// How many control points two files have together; 2^64 - 1 stands for that many or more.
pub fn points(first: &[Part<'_>], second: &[Part<'_>]) -> u64
    ensures { result ≡ spec.points (parts_view first.now) (parts_view second.now) }
{
    with_parts(with_parts(1, first), second)
}
