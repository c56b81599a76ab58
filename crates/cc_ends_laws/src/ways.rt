// Where an act leads within its activation.
ghost use Rattle.std.specs.Prelude.{◌≡◌};
ghost use Rattle.cc_ends_laws.specs.Ranks as spec;

use cc_acts::Act;

/// The points of its own activation to which an act may lead: after a call the one at which the caller goes on, and none after
/// the activation's end.
#[derive(Clone, Copy)]
pub enum Ways {
    Nowhere,
    One(u32),
    Two(u32, u32),
    /// Those of `count` labels of switches from number `from`, or the other one.
    Cases { from: u32, count: u32, other: u32 },
}

/// Where the act leads.
pub fn ways_of(act: Act) -> Ways
    ensures { result ≡ spec.ways_of act }
{
    match act {
        Act::Leave { .. } => Ways::Nowhere,
        Act::Branch { yes, no } => Ways::Two(yes, no),
        Act::Shortcut { right, next, .. } => Ways::Two(right, next),
        Act::Select {
            from,
            count,
            other,
            ..
        } => Ways::Cases { from, count, other },
        Act::Skip { next }
        | Act::Constant { next, .. }
        | Act::Hand { next, .. }
        | Act::Name { next, .. }
        | Act::Target { next, .. }
        | Act::Element { next, .. }
        | Act::Member { next, .. }
        | Act::Forget { next }
        | Act::Convert { next, .. }
        | Act::Unary { next, .. }
        | Act::Truth { next, .. }
        | Act::Binary { next, .. }
        | Act::Store { next, .. }
        | Act::Copy { next, .. }
        | Act::Update { next, .. }
        | Act::Step { next, .. }
        | Act::Call { next, .. }
        | Act::Ask { next, .. }
        | Act::Enter { next, .. }
        | Act::Return { next, .. }
        | Act::ReturnNone { next, .. }
        | Act::Make { next, .. }
        | Act::Init { next, .. }
        | Act::Fill { next, .. }
        | Act::Drop { next, .. } => Ways::One(next),
    }
}
