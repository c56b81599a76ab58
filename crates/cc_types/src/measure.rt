// How much room a type takes.
ghost use Rattle.std.specs.Prelude.{◌≡◌};
ghost use Rattle.cc_types.specs.Measures as spec;

use cc_arith::IntKind;

/// What is measured of a type. No number is above 2^64 - 1: what is above it counts as that many.
#[derive(Clone, Copy, Debug, PartialEq, Eq)]
pub struct Measure {
    /// Whether it is a complete object type (C17 6.2.5).
    pub is_complete: bool,
    /// How many scalars an object of the type has.
    pub cells: u64,
    /// The bytes of an object (C17 6.5.3.4), each scalar aligned to its own size.
    pub size: u64,
    /// The bytes to which an object is aligned.
    pub alignment: u64,
    /// Whether an element or a member is const, at any depth.
    pub has_const_part: bool,
}

// The bytes of an integer (C17 6.5.3.4).
fn bytes_of(kind: IntKind) -> u64
    ensures { result ≡ spec.bytes_of kind }
{
    match kind {
        IntKind::Bool | IntKind::Char | IntKind::SChar | IntKind::UChar => 1,
        IntKind::Short | IntKind::UShort => 2,
        IntKind::Int | IntKind::UInt => 4,
        IntKind::Long | IntKind::ULong | IntKind::LLong | IntKind::ULLong => 8,
    }
}

// The bytes from n to the next multiple of `alignment`.
fn gap(n: u64, alignment: u64) -> u64
    ensures { result ≡ spec.gap n alignment }
{
    if alignment <= 1 {
        return 0;
    }
    (alignment - n % alignment) % alignment
}

fn padded(n: u64, alignment: u64) -> u64
    ensures { result ≡ spec.padded n alignment }
{
    n.saturating_add(gap(n, alignment))
}

pub(crate) fn larger(a: u64, b: u64) -> u64
    ensures { result ≡ spec.larger a b }
{
    if a < b { b } else { a }
}

impl Measure {
    // Of what is incomplete or no object type.
    pub(crate) fn nothing() -> Measure
        ensures { result ≡ spec.nothing }
    {
        Measure {
            is_complete: false,
            cells: 0,
            size: 0,
            alignment: 1,
            has_const_part: false,
        }
    }

    fn scalar(size: u64) -> Measure
        ensures { result ≡ spec.scalar size }
    {
        Measure {
            is_complete: true,
            cells: 1,
            size,
            alignment: size,
            has_const_part: false,
        }
    }

    pub(crate) fn integer(kind: IntKind) -> Measure
        ensures { result ≡ spec.scalar (spec.bytes_of kind) }
    {
        Measure::scalar(bytes_of(kind))
    }

    pub(crate) fn pointer() -> Measure
        ensures { result ≡ spec.scalar 8 }
    {
        Measure::scalar(8)
    }

    // Of an array, const or not, of which this is an element.
    pub(crate) fn array(self, is_const: bool, length: Option<u64>) -> Measure
        ensures { result ≡ spec.arrayed is_const length self }
    {
        let count = length.unwrap_or(0);
        Measure {
            is_complete: length.is_some() && self.is_complete,
            cells: count.saturating_mul(self.cells),
            size: count.saturating_mul(self.size),
            alignment: self.alignment,
            has_const_part: is_const || self.has_const_part,
        }
    }

    // Of a struct before its first member.
    pub(crate) fn empty() -> Measure
        ensures { result ≡ spec.empty }
    {
        Measure {
            is_complete: true,
            cells: 0,
            size: 0,
            alignment: 1,
            has_const_part: false,
        }
    }

    // Of this struct with one member more, const or not.
    pub(crate) fn joined(self, is_const: bool, member: Measure) -> Measure
        ensures { result ≡ spec.joined self is_const member }
    {
        Measure {
            is_complete: self.is_complete && member.is_complete,
            cells: self.cells.saturating_add(member.cells),
            size: padded(self.size, member.alignment).saturating_add(member.size),
            alignment: larger(self.alignment, member.alignment),
            has_const_part: self.has_const_part || is_const || member.has_const_part,
        }
    }

    // Of this struct after its last member.
    pub(crate) fn ended(self) -> Measure
        ensures { result ≡ spec.ended self }
    {
        Measure {
            is_complete: self.is_complete,
            cells: self.cells,
            size: padded(self.size, self.alignment),
            alignment: self.alignment,
            has_const_part: self.has_const_part,
        }
    }
}
