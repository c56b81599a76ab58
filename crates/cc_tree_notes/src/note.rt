// The note of a numbered node.
ghost use Rattle.std.specs.Prelude.{◌≡◌, ◌+◌, ◌-◌, ◌<◌, ◌^◌};

use cc_base::Spot;

/// The spot of a node, and its number in the order of the tree.
#[derive(Clone, Copy, Debug, PartialEq, Eq)]
pub struct Counted {
    pub spot: Spot,
    pub number: u32,
}

impl Counted {
    ghost use Rattle.cc_tree_notes.specs.Numbering.{counted};

    /// The note of the node with this spot, if `next` is the next number, which is then one more.
    pub fn new(spot: Spot, next: &mut u32) -> Counted
        requires { next.old < 2 ^ 32 - 1 }
        ensures note { result ≡ counted spot next.old }
        ensures next { next.new ≡ next.old + 1 }
    {
        let number = *next;
        *next += 1;
        Counted { spot, number }
    }
}
