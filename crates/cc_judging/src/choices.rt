// `?:` and the comma operator (C17 6.5.15, 6.5.17).
ghost use Rattle.std.specs.Prelude.{◌≡◌};
ghost use Rattle.cc_judging.specs.Choices as spec;

use crate::judged::{Judged, Part, or_breaks, typed_integer};
use cc_arith::common;
use cc_symbols::rule;
use cc_types::{ExprType, Shape, TypeTable};

/// `c ? a : b`, where each branch may be a null constant: C32 at the condition, C48 at the whole.
pub fn choice(
    table: &TypeTable,
    c: Option<ExprType>,
    s: Option<ExprType>,
    m: bool,
    t: Option<ExprType>,
    n: bool,
) -> Judged
    ensures { result ≡ spec.choice_judged table.now c s m t n }
{
    match (c, s, t) {
        (Some(c), Some(s), Some(t)) => chosen(table, c, table.value(s), m, table.value(t), n),
        _ => Judged::Untyped,
    }
}

fn chosen(table: &TypeTable, c: ExprType, s: ExprType, m: bool, t: ExprType, n: bool) -> Judged
    ensures { result ≡ spec.chosen table.now c s m t n }
{
    if table.is_scalar(table.value(c)) {
        branches(table, s, m, t, n)
    } else {
        Judged::Breaks(rule::CONDITION, Part::First)
    }
}

fn branches(table: &TypeTable, s: ExprType, m: bool, t: ExprType, n: bool) -> Judged
    ensures { result ≡ spec.branches_judged table.now s m t n }
{
    match (table.kind(s), table.kind(t)) {
        (Some(j), Some(k)) => typed_integer(common(j, k)),
        _ => others(table, s, m, t, n),
    }
}

// Branches of which one is no integer.
fn others(table: &TypeTable, s: ExprType, m: bool, t: ExprType, n: bool) -> Judged
    ensures { result ≡ spec.others_judged table.now s m t n }
{
    if table.is_void(s) && table.is_void(t) {
        Judged::Typed(ExprType::Plain(Shape::Void(false)))
    } else if table.point_at_one(s, t) || table.is_pointer(s) && n {
        Judged::Typed(s)
    } else {
        or_breaks(m && table.is_pointer(t), t, rule::BRANCHES, Part::Whole)
    }
}

/// `a, b`.
pub fn comma(table: &TypeTable, s: Option<ExprType>, t: Option<ExprType>) -> Judged
    ensures { result ≡ spec.comma_judged table.now s t }
{
    match (s, t) {
        (Some(_), Some(t)) => Judged::Typed(table.value(t)),
        _ => Judged::Untyped,
    }
}
