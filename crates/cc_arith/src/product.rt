// Products, which need more room than `i128` has.

ghost use Rattle.std.specs.Prelude.{◌≡◌, false, pos, ◌*ℤ◌};
ghost use Rattle.cc_arith.specs.Kinds.{is_signed, IsInRange};
ghost use Rattle.cc_arith.specs.Promotions.{IsPromoted};
ghost use Rattle.cc_arith.specs.Conversions.{converted};
ghost use Rattle.cc_arith.specs.Operators.{computed};

use crate::exact::{signed_product, unsigned_product};
use crate::kind::{IntKind, has_sign, width};
use crate::representation::representable;
use crate::undefined::ArithUndef;

pub(crate) fn multiply(k: IntKind, a: i128, b: i128) -> Result<i128, ArithUndef>
    requires kind { IsPromoted k }
    requires left { IsInRange k a }
    requires right { IsInRange k b }
    ensures { result ≡ computed k (a *ℤ b) }
{
    if has_sign(k) {
        representable(ArithUndef::Overflow, k, signed_product(a, b))
    } else {
        Ok(low_part(k, unsigned_product(a, b)))
    }
}

// n modulo 2^width.
fn low_part(k: IntKind, n: u128) -> i128
    requires kind { IsPromoted k }
    requires unsigned { is_signed k ≡ false }
    ensures { result ≡ converted k (pos n) }
{
    (n % (1 << width(k))) as i128
}
