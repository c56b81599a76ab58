// What a kind makes of a result that mathematics gives.

ghost use Rattle.std.specs.Prelude.{◌≡◌};
ghost use Rattle.cc_arith.specs.Operators.{represented, computed, truth_of};

use crate::conversion::value_in;
use crate::kind::{IntKind, has_sign, range};
use crate::undefined::ArithUndef;

// z, or the error where the kind can't represent it.
pub(crate) fn representable(why: ArithUndef, k: IntKind, z: i128) -> Result<i128, ArithUndef>
    ensures { result ≡ represented why k z }
{
    let (least, greatest) = range(k);
    if least <= z && z <= greatest {
        Ok(z)
    } else {
        Err(why)
    }
}

// A sum, a difference or a negative.
pub(crate) fn reduced_or_checked(k: IntKind, z: i128) -> Result<i128, ArithUndef>
    ensures { result ≡ computed k z }
{
    if has_sign(k) {
        representable(ArithUndef::Overflow, k, z)
    } else {
        Ok(value_in(k, z))
    }
}

pub(crate) fn truth(holds: bool) -> i128
    ensures { result ≡ truth_of holds }
{
    if holds { 1 } else { 0 }
}
