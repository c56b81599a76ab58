// What is said of a node.
ghost use Rattle.std.specs.Prelude.{◌≡◌};
ghost use Rattle.cc_judging.specs.Judging as spec;

use cc_arith::IntKind;
use cc_symbols::rule;
use cc_types::{ExprType, Shape};

/// Which occurrence breaks a rule: a node, or its first or second part.
#[derive(Clone, Copy)]
pub enum Part {
    Whole,
    First,
    Second,
}

/// What is said of a node.
#[derive(Clone, Copy)]
pub enum Judged {
    Typed(ExprType),
    /// It breaks this rule, and has no type.
    Breaks(u8, Part),
    /// It has this type, and its second part, a value that is assigned, doesn't fit (C38).
    Misfits(ExprType),
    /// A part has no type.
    Untyped,
}

impl Judged {
    /// The type that a node has.
    pub fn kind(self) -> Option<ExprType>
        ensures { result ≡ spec.kind_of self }
    {
        match self {
            Judged::Typed(t) | Judged::Misfits(t) => Some(t),
            Judged::Breaks(_, _) | Judged::Untyped => None,
        }
    }

    /// The rule that is broken, and where.
    pub fn broken(self) -> Option<(u8, Part)>
        ensures { result ≡ spec.broken_of self }
    {
        match self {
            Judged::Breaks(number, part) => Some((number, part)),
            Judged::Misfits(_) => Some((rule::FIT, Part::Second)),
            Judged::Typed(_) | Judged::Untyped => None,
        }
    }
}

// An integer type.
pub(crate) fn typed_integer(kind: IntKind) -> Judged
    ensures { result ≡ spec.typed_integer kind }
{
    Judged::Typed(ExprType::Plain(Shape::Integer(false, kind)))
}

// The type, if the test holds, and else this rule is broken.
pub(crate) fn or_breaks(holds: bool, t: ExprType, number: u8, part: Part) -> Judged
    ensures { result ≡ spec.or_breaks holds t number part }
{
    if holds {
        Judged::Typed(t)
    } else {
        Judged::Breaks(number, part)
    }
}

// `int`, if the test holds, and else this rule is broken.
pub(crate) fn int_or_breaks(holds: bool, number: u8, part: Part) -> Judged
    ensures { result ≡ spec.int_or_breaks holds number part }
{
    let int = ExprType::Plain(Shape::Integer(false, IntKind::Int));
    or_breaks(holds, int, number, part)
}
