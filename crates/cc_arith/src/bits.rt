// The operators on bits.
//
// An `i128` has the bits of its value in two's complement, with those of the sign on above the kind's
// width. An unsigned kind reduces what the complement makes of these; the other results are values of
// the kind as they are.

ghost use Rattle.std.specs.Prelude.{◌≡◌};
ghost use Rattle.cc_arith.specs.Promotions.{IsPromoted};
ghost use Rattle.cc_arith.specs.Bits.{and_of, or_of, xor_of, complement_of};

use crate::conversion::value_in;
use crate::exact::{bits_in_both, bits_in_either, bits_in_one, opposite_bits};
use crate::kind::IntKind;

pub(crate) fn bitwise_and(k: IntKind, a: i128, b: i128) -> i128
    requires { IsPromoted k }
    ensures { result ≡ and_of k a b }
{
    value_in(k, bits_in_both(a, b))
}

pub(crate) fn bitwise_or(k: IntKind, a: i128, b: i128) -> i128
    requires { IsPromoted k }
    ensures { result ≡ or_of k a b }
{
    value_in(k, bits_in_either(a, b))
}

pub(crate) fn bitwise_xor(k: IntKind, a: i128, b: i128) -> i128
    requires { IsPromoted k }
    ensures { result ≡ xor_of k a b }
{
    value_in(k, bits_in_one(a, b))
}

pub(crate) fn complement(k: IntKind, a: i128) -> i128
    requires { IsPromoted k }
    ensures { result ≡ complement_of k a }
{
    value_in(k, opposite_bits(a))
}
