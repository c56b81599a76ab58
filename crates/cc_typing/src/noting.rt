// Taking down what is found.
ghost use Rattle.std.specs.Prelude.{◌≡◌};
ghost use Rattle.cc_typing.specs.Noting as spec;

use cc_base::Spot;
use cc_judging::{Judged, Part, Selection};
use cc_symbols::{Findings, Offence, lesser};
use cc_tree_notes::Counted;
use cc_types::ExprType;

/// The places of a node and of its first two parts.
#[derive(Clone, Copy)]
pub(crate) struct Spots {
    pub(crate) whole: Spot,
    pub(crate) first: Spot,
    pub(crate) second: Spot,
}

// A node without parts of which a rule names the place.
pub(crate) fn alone(n: Counted) -> Spots
    ensures { result ≡ spec.alone n }
{
    Spots {
        whole: n.spot,
        first: n.spot,
        second: n.spot,
    }
}

pub(crate) fn with_first(n: Counted, first: Counted) -> Spots
    ensures { result ≡ spec.with_first n first }
{
    Spots {
        whole: n.spot,
        first: first.spot,
        second: n.spot,
    }
}

pub(crate) fn with_both(n: Counted, first: Counted, second: Counted) -> Spots
    ensures { result ≡ spec.with_both n first second }
{
    Spots {
        whole: n.spot,
        first: first.spot,
        second: second.spot,
    }
}

fn spot_of(spots: Spots, part: Part) -> Spot
    ensures { result ≡ spec.spot_of spots part }
{
    match part {
        Part::Whole => spots.whole,
        Part::First => spots.first,
        Part::Second => spots.second,
    }
}

// What a node offends.
fn offence_of(spots: Spots, judged: Judged) -> Option<Offence>
    ensures { result ≡ spec.offence_of spots judged }
{
    match judged.broken() {
        Some((rule, part)) => Some(Offence {
            spot: spot_of(spots, part),
            rule,
        }),
        None => None,
    }
}

// Keeps the lesser offence.
pub(crate) fn keep(found: &mut Findings, offence: Option<Offence>)
    ensures { found.new ≡ spec.kept offence found.old }
{
    found.least = lesser(found.least, offence);
}

/// Takes down that this rule is broken at this place, if that comes before what was found. Takes no memory.
pub fn offend(found: &mut Findings, spot: Spot, rule: u8)
    ensures { found.new ≡ spec.offended spot rule found.old }
{
    keep(found, Some(Offence { spot, rule }));
}

// Takes down what is said of a node, and gives its type.
pub(crate) fn settle(
    found: &mut Findings,
    n: Counted,
    spots: Spots,
    judged: Judged,
) -> Option<ExprType>
    ensures value { result ≡ spec.kind_of judged }
    ensures found { found.new ≡ spec.settled n spots judged found.old }
{
    found.types.put(n.number, judged.kind());
    keep(found, offence_of(spots, judged));
    judged.kind()
}

// The same of a node that selects a member.
pub(crate) fn settle_member(
    found: &mut Findings,
    n: Counted,
    selection: Selection,
) -> Option<ExprType>
    ensures value { result ≡ spec.kind_of selection.judged }
    ensures found { found.new ≡ spec.member_settled n selection found.old }
{
    found.members.put(n.number, selection.place);
    settle(found, n, alone(n), selection.judged)
}
