// The integer kinds and what each can represent.

ghost use Rattle.std.specs.Prelude.{◌≡◌, ◌^◌, pos};
ghost use Rattle.cc_arith.specs.Kinds.{least, greatest, width_of, is_signed};

/// An integer type of C, up to qualifiers (C17 6.2.5). An enumerated type is an `Int`.
#[derive(Clone, Copy, Debug, PartialEq, Eq, Hash)]
pub enum IntKind {
    /// `_Bool`: 0 or 1.
    Bool,
    /// `char`: 8 bits with a sign, and yet a kind apart from `SChar`.
    Char,
    /// `signed char`: 8 bits.
    SChar,
    /// `unsigned char`: 8 bits.
    UChar,
    /// `short`: 16 bits.
    Short,
    /// `unsigned short`: 16 bits.
    UShort,
    /// `int`: 32 bits.
    Int,
    /// `unsigned int`: 32 bits.
    UInt,
    /// `long`: 64 bits.
    Long,
    /// `unsigned long`: 64 bits.
    ULong,
    /// `long long`: 64 bits, and of greater rank than `long`.
    LLong,
    /// `unsigned long long`: 64 bits.
    ULLong,
}

/// The least and the greatest value of the kind (C17 6.2.6.2, two's complement).
pub fn range(k: IntKind) -> (i128, i128)
    ensures low { result.0 ≡ least k }
    ensures high { result.1 ≡ greatest k }
{
    match k {
        IntKind::Bool => (0, 1),
        IntKind::Char | IntKind::SChar => (-0x80, 0x7f),
        IntKind::UChar => (0, 0xff),
        IntKind::Short => (-0x8000, 0x7fff),
        IntKind::UShort => (0, 0xffff),
        IntKind::Int => (-0x8000_0000, 0x7fff_ffff),
        IntKind::UInt => (0, 0xffff_ffff),
        IntKind::Long | IntKind::LLong => (-0x8000_0000_0000_0000, 0x7fff_ffff_ffff_ffff),
        IntKind::ULong | IntKind::ULLong => (0, 0xffff_ffff_ffff_ffff),
    }
}

// How many bits represent a value.
pub(crate) fn width(k: IntKind) -> u32
    ensures { result ≡ width_of k }
{
    match k {
        IntKind::Bool => 1,
        IntKind::Char | IntKind::SChar | IntKind::UChar => 8,
        IntKind::Short | IntKind::UShort => 16,
        IntKind::Int | IntKind::UInt => 32,
        IntKind::Long | IntKind::ULong | IntKind::LLong | IntKind::ULLong => 64,
    }
}

// How many values the kind has.
pub(crate) fn value_count(k: IntKind) -> i128
    ensures { result ≡ pos (2 ^ width_of k) }
{
    1 << width(k)
}

pub(crate) fn has_sign(k: IntKind) -> bool
    ensures { result ≡ is_signed k }
{
    matches!(
        k,
        IntKind::Char
            | IntKind::SChar
            | IntKind::Short
            | IntKind::Int
            | IntKind::Long
            | IntKind::LLong
    )
}
