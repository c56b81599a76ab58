// Comparisons of which an operand is no integer (C17 6.5.8, 6.5.9), and `&&` and `||`.
ghost use Rattle.std.specs.Prelude.{◌≡◌};
ghost use Rattle.cc_judging.specs.Comparisons as spec;

use crate::judged::{Judged, Part, int_or_breaks};
use cc_symbols::rule;
use cc_types::{ExprType, TypeTable};

// `<`, `<=`, `>`, `>=`: functions have no order.
pub(crate) fn order(table: &TypeTable, s: ExprType, t: ExprType) -> Judged
    ensures { result ≡ spec.order_judged table.now s t }
{
    let holds = table.points_to_object(s) && table.point_alike(s, t);
    int_or_breaks(holds, rule::COMPARISON, Part::Whole)
}

// `==`, `!=`; each operand may be a null constant.
pub(crate) fn equality(table: &TypeTable, s: ExprType, m: bool, t: ExprType, n: bool) -> Judged
    ensures { result ≡ spec.equality_judged table.now s m t n }
{
    let with_null = table.is_pointer(s) && n || m && table.is_pointer(t);
    let holds = with_null || table.point_alike(s, t);
    int_or_breaks(holds, rule::COMPARISON, Part::Whole)
}

// `&&`, `||` (C17 6.5.13, 6.5.14): C45 at the first operand that isn't scalar.
pub(crate) fn logical(table: &TypeTable, s: ExprType, t: ExprType) -> Judged
    ensures { result ≡ spec.logical_judged table.now s t }
{
    if table.is_scalar(s) {
        int_or_breaks(table.is_scalar(t), rule::SCALAR_OPERAND, Part::Second)
    } else {
        Judged::Breaks(rule::SCALAR_OPERAND, Part::First)
    }
}
