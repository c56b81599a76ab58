// What breaks a rule, and where.
ghost use Rattle.std.specs.Prelude.{◌≡◌};
ghost use Rattle.cc_symbols.specs.Offences as spec;

use cc_base::Spot;

/// A rule that is broken, by its number, and the place (docs/rules.md).
#[derive(Clone, Copy, Debug, PartialEq, Eq)]
pub struct Offence {
    pub spot: Spot,
    pub rule: u8,
}

impl Offence {
    /// Whether this one comes before the other: by place, then by rule.
    pub fn is_before(self, other: Offence) -> bool
        ensures { result ≡ spec.is_before self other }
    {
        if self.spot.line != other.spot.line {
            self.spot.line < other.spot.line
        } else if self.spot.column != other.spot.column {
            self.spot.column < other.spot.column
        } else {
            self.rule < other.rule
        }
    }
}

/// The one of two offences, where there are any, that comes first; the earlier one of two equal ones.
pub fn lesser(one: Option<Offence>, other: Option<Offence>) -> Option<Offence>
    ensures { result ≡ spec.lesser one other }
{
    match (one, other) {
        (Some(a), Some(b)) => Some(if b.is_before(a) { b } else { a }),
        (Some(a), None) => Some(a),
        (None, other) => other,
    }
}
