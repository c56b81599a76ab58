// How deep a type is.
ghost use Rattle.std.specs.Prelude.{◌≡◌};
ghost use Rattle.cc_types.specs.Depths as spec;

use crate::measure::larger;
use crate::shape::Shape;

/// How deep a type is. No number is above 2^64 - 1: what is deeper counts as that deep.
#[derive(Clone, Copy, Debug, PartialEq, Eq)]
pub struct Depth {
    /// How deep it is by itself.
    pub whole: u64,
    /// How deep it is where it is reached through a pointer or a function type.
    pub inside: u64,
}

/// What is listed of the depth of a type: its depth inside a pointer or a function type, how many arrays stand in one
/// another at its top, and what stands in the innermost.
#[derive(Clone, Copy, Debug, PartialEq, Eq)]
pub struct DepthItem {
    pub inside: u64,
    pub levels: u64,
    pub base: Shape,
}

pub(crate) fn deeper(n: u64) -> u64
    ensures { result ≡ spec.deeper n }
{
    n.saturating_add(1)
}

impl Depth {
    // As deep everywhere.
    pub(crate) fn flat(n: u64) -> Depth
        ensures { result ≡ spec.flat n }
    {
        Depth {
            whole: n,
            inside: n,
        }
    }

    pub(crate) fn with_inside(self, inside: u64) -> Depth
        ensures { result ≡ record { whole = self.whole; inside = inside } }
    {
        Depth {
            whole: self.whole,
            inside,
        }
    }

    // One more.
    pub(crate) fn sunk(self) -> Depth
        ensures { result ≡ spec.sunk self }
    {
        Depth {
            whole: deeper(self.whole),
            inside: deeper(self.inside),
        }
    }

    // The deeper of two.
    pub(crate) fn deepest(self, other: Depth) -> Depth
        ensures { result ≡ spec.deepest self other }
    {
        Depth {
            whole: larger(self.whole, other.whole),
            inside: larger(self.inside, other.inside),
        }
    }
}
