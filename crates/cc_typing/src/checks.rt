// Rules on the value of an expression that stands by itself.
ghost use Rattle.std.specs.Prelude.{◌≡◌, Some};
ghost use Rattle.cc_tree.specs.Views.{view};
ghost use Rattle.cc_typing.specs.Checks as spec;

use crate::forms::is_null;
use crate::noting::{keep, offend};
use cc_base::Spot;
use cc_symbols::{Findings, Offence, Symbols, rule};
use cc_tree::Expr;
use cc_tree_notes::Counted;
use cc_tree_walks::expr_note;
use cc_types::ExprType;

/// C38 at an expression of type `t`, if it has one, whose value doesn't fit the type `target`: an initialiser, or what is
/// returned. Takes no memory.
pub fn check_fit(
    symbols: &Symbols,
    found: &mut Findings,
    target: ExprType,
    e: &Expr<Counted>,
    t: Option<ExprType>,
)
    ensures { found.new ≡ spec.fit_checked symbols.now (Some target) (view e.now) t found.old }
{
    check_argument(symbols, found, Some(target), e, t);
}

// The same, if there is a target.
pub(crate) fn check_argument(
    symbols: &Symbols,
    found: &mut Findings,
    target: Option<ExprType>,
    e: &Expr<Counted>,
    t: Option<ExprType>,
)
    ensures { found.new ≡ spec.fit_checked symbols.now target (view e.now) t found.old }
{
    match (target, t) {
        (Some(target), Some(t)) => fit(symbols, found, target, e, t),
        _ => {}
    }
}

fn fit(symbols: &Symbols, found: &mut Findings, target: ExprType, e: &Expr<Counted>, t: ExprType)
    ensures { found.new ≡ spec.fitted symbols.now target (view e.now) t found.old }
{
    let value = symbols.types.value(t);
    let fits = symbols
        .types
        .fits(&symbols.structs, value, is_null(symbols, e), target);
    keep(found, unless(fits, expr_note(e).spot, rule::FIT));
}

// An offence, unless a test holds.
fn unless(holds: bool, spot: Spot, rule: u8) -> Option<Offence>
    ensures { result ≡ spec.unless holds spot rule }
{
    if holds {
        None
    } else {
        Some(Offence { spot, rule })
    }
}

/// C32 at a condition of type `t`, if it has one, that isn't scalar. Takes no memory.
pub fn check_scalar(symbols: &Symbols, found: &mut Findings, e: &Expr<Counted>, t: Option<ExprType>)
    ensures { found.new ≡ spec.scalar_checked symbols.now (view e.now) t found.old }
{
    match t {
        Some(t) => {
            let holds = symbols.types.is_scalar(symbols.types.value(t));
            keep(found, unless(holds, expr_note(e).spot, rule::CONDITION));
        }
        None => {}
    }
}

/// C32 at the place of a `switch` whose expression has type `t`, if it has one, that isn't integer. Takes no memory.
pub fn check_integer(symbols: &Symbols, found: &mut Findings, spot: Spot, t: Option<ExprType>)
    ensures { found.new ≡ spec.integer_checked symbols.now spot t found.old }
{
    match t {
        Some(t) => {
            let holds = symbols.types.is_integer(symbols.types.value(t));
            keep(found, unless(holds, spot, rule::CONDITION));
        }
        None => {}
    }
}
