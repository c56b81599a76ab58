// Which kind an operator works in.

ghost use Rattle.std.specs.Prelude.{◌≡◌, ℤ};
ghost use Rattle.cc_arith.specs.Kinds.{IsInRange};
ghost use Rattle.cc_arith.specs.Promotions.{promoted, IsPromoted, common_of};

use crate::kind::IntKind;

/// The kind of an operand of kind `k` after the integer promotions (C17 6.3.1.1): `Int` for each kind of
/// lesser rank, and else `k`. It represents each value of `k`.
pub fn promote(k: IntKind) -> IntKind
    ensures value { result ≡ promoted k }
    ensures promoted { IsPromoted result }
    ensures keeps { (z : ℤ) → IsInRange k z → IsInRange result z }
{
    match k {
        IntKind::Bool
        | IntKind::Char
        | IntKind::SChar
        | IntKind::UChar
        | IntKind::Short
        | IntKind::UShort => IntKind::Int,
        _ => k,
    }
}

/// The kind that the usual arithmetic conversions give two operands of kinds `a` and `b` (C17 6.3.1.8).
/// The rank decides before the width: `LLong` and `ULong` give `ULLong`, though all three have 64 bits.
pub fn common(a: IntKind, b: IntKind) -> IntKind
    ensures value { result ≡ common_of a b }
    ensures symmetric { result ≡ common_of b a }
    ensures promoted { IsPromoted result }
{
    match (promote(a), promote(b)) {
        (IntKind::ULLong, _) | (_, IntKind::ULLong) => IntKind::ULLong,
        (IntKind::LLong, IntKind::ULong) | (IntKind::ULong, IntKind::LLong) => IntKind::ULLong,
        (IntKind::LLong, _) | (_, IntKind::LLong) => IntKind::LLong,
        (IntKind::ULong, _) | (_, IntKind::ULong) => IntKind::ULong,
        (IntKind::Long, _) | (_, IntKind::Long) => IntKind::Long,
        (IntKind::UInt, _) | (_, IntKind::UInt) => IntKind::UInt,
        _ => IntKind::Int,
    }
}
