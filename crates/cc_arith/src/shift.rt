// Shifts, whose count has a kind of its own.

ghost use Rattle.std.specs.Prelude.{◌≡◌, ◌^◌, ◌&&◌, pos, ◌*ℤ◌, int_le, int_lt, unsigned_abs, Ok};
ghost use Rattle.std.specs.Int.{int_div_euclid};
ghost use Rattle.cc_arith.specs.Kinds.{width_of, IsInRange};
ghost use Rattle.cc_arith.specs.Operators.{shifted, shifted_left};

use crate::conversion::value_in;
use crate::exact::{over_power, times_power};
use crate::kind::{IntKind, has_sign, width};
use crate::representation::representable;
use crate::undefined::ArithUndef;

pub(crate) fn shift_left(k: IntKind, a: i128, b: i128) -> Result<i128, ArithUndef>
    requires left { IsInRange k a }
    ensures { result ≡ shifted k b (shifted_left k a (a *ℤ pos (2 ^ unsigned_abs b))) }
{
    if !is_count(k, b) {
        return Err(ArithUndef::ShiftCount);
    }
    if has_sign(k) {
        if a < 0 {
            return Err(ArithUndef::ShiftNegative);
        }
        representable(ArithUndef::ShiftNegative, k, times_power(a, b as u32))
    } else {
        Ok(value_in(k, times_power(a, b as u32)))
    }
}

pub(crate) fn shift_right(k: IntKind, a: i128, b: i128) -> Result<i128, ArithUndef>
    requires left { IsInRange k a }
    ensures { result ≡ shifted k b (Ok (int_div_euclid a (pos (2 ^ unsigned_abs b)))) }
{
    if !is_count(k, b) {
        return Err(ArithUndef::ShiftCount);
    }
    Ok(over_power(a, b as u32))
}

// The counts that C allows are those from 0 to the width less 1.
fn is_count(k: IntKind, b: i128) -> bool
    ensures { result ≡ (int_le (pos 0) b && int_lt b (pos (width_of k))) }
{
    0 <= b && b < width(k) as i128
}
