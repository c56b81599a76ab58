// Quotients and remainders.

ghost use Rattle.std.specs.Prelude.{◌≡◌, int_div, int_rem};
ghost use Rattle.cc_arith.specs.Kinds.{IsInRange};
ghost use Rattle.cc_arith.specs.Operators.{divided};

use crate::exact::{quotient, remainder};
use crate::kind::IntKind;
use crate::representation::representable;
use crate::undefined::ArithUndef;

pub(crate) fn divide(k: IntKind, a: i128, b: i128) -> Result<i128, ArithUndef>
    requires left { IsInRange k a }
    ensures { result ≡ divided k a b (int_div a b) }
{
    if b == 0 {
        return Err(ArithUndef::ZeroDivisor);
    }
    representable(ArithUndef::Overflow, k, quotient(a, b))
}

// There is no remainder where the kind can't represent the quotient.
pub(crate) fn remain(k: IntKind, a: i128, b: i128) -> Result<i128, ArithUndef>
    requires left { IsInRange k a }
    ensures { result ≡ divided k a b (int_rem a b) }
{
    if b == 0 {
        return Err(ArithUndef::ZeroDivisor);
    }
    match representable(ArithUndef::Overflow, k, quotient(a, b)) {
        Ok(_) => Ok(remainder(a, b)),
        Err(why) => Err(why),
    }
}
