// The walk over an expression.
ghost use Rattle.std.specs.Prelude.{◌≡◌};
ghost use Rattle.cc_tree.specs.Views.{view, exprs_of};
ghost use Rattle.cc_typing.specs.Typing as spec;

use crate::checks::check_argument;
use crate::forms::{is_null, is_place, makes_null};
use crate::look_ups::{declaration_at, kind_at, type_at};
use crate::noting::{alone, settle, settle_member, with_both, with_first};
use cc_arith::IntKind;
use cc_base::Bytes;
use cc_judging::{
    Passing, arrow, assign, binary, call, called, cast, choice, comma, index, integer, member,
    name, parameter, paren, pass_one, size_of, step, string, unary,
};
use cc_symbols::{Findings, Symbols};
use cc_tree::Expr;
use cc_tree_notes::Counted;
use cc_tree_walks::{expr_note, type_note};
use cc_types::ExprType;

/// The type of an expression. Takes down what is found in it: the type of each of its nodes, the member that each `.m` and
/// `->m` selects, and the least offence of C36 to C51 (but for where `(void *)0` stands), C32 of `?:` included. A node that
/// breaks a rule, or has a part without a type, has none. Takes no memory.
pub fn judge(symbols: &Symbols, e: &Expr<Counted>, found: &mut Findings) -> Option<ExprType>
    ensures value { result ≡ spec.type_of symbols.now (view e.now) }
    ensures found { found.new ≡ spec.noted symbols.now (view e.now) found.old }
{
    expr(symbols, e, found)
}

#[cycle(walk)]
fn expr(symbols: &Symbols, e: &Expr<Counted>, found: &mut Findings) -> Option<ExprType>
    ensures value { result ≡ spec.type_of symbols.now (view e.now) }
    ensures found { found.new ≡ spec.noted symbols.now (view e.now) found.old }
{
    match e {
        Expr::Name(n, _) => {
            let judged = name(&symbols.types, declaration_at(symbols, n.number));
            settle(found, *n, alone(*n), judged)
        }
        Expr::Int(n, _, kind) => settle(found, *n, alone(*n), integer(*kind)),
        Expr::Char(n, _) => settle(found, *n, alone(*n), integer(IntKind::Int)),
        Expr::Str(n, parts) => {
            let judged = string(string_length(parts.as_slice()));
            settle(found, *n, alone(*n), judged)
        }
        Expr::Paren(n, e) => {
            let t = expr(symbols, e.get(), found);
            settle(found, *n, alone(*n), paren(t))
        }
        Expr::Unary(n, op, e) => {
            let t = expr(symbols, e.get(), found);
            let place = is_place(symbols, e.get());
            let judged = unary(&symbols.types, &symbols.structs, *op, place, t);
            settle(found, *n, with_first(*n, *expr_note(e.get())), judged)
        }
        Expr::Binary(n, op, a, b) => {
            let s = expr(symbols, a.get(), found);
            let t = expr(symbols, b.get(), found);
            let m = is_null(symbols, a.get());
            let judged = binary(&symbols.types, *op, s, m, t, is_null(symbols, b.get()));
            let spots = with_both(*n, *expr_note(a.get()), *expr_note(b.get()));
            settle(found, *n, spots, judged)
        }
        Expr::Assign(n, op, a, b) => {
            let s = expr(symbols, a.get(), found);
            let t = expr(symbols, b.get(), found);
            let place = is_place(symbols, a.get());
            let null = is_null(symbols, b.get());
            let judged = assign(&symbols.types, &symbols.structs, *op, place, s, t, null);
            let spots = with_both(*n, *expr_note(a.get()), *expr_note(b.get()));
            settle(found, *n, spots, judged)
        }
        Expr::Step(n, _, _, e) => {
            let t = expr(symbols, e.get(), found);
            let judged = step(&symbols.types, is_place(symbols, e.get()), t);
            settle(found, *n, alone(*n), judged)
        }
        Expr::Cond(n, c, a, b) => {
            let k = expr(symbols, c.get(), found);
            let s = expr(symbols, a.get(), found);
            let t = expr(symbols, b.get(), found);
            let m = is_null(symbols, a.get());
            let judged = choice(&symbols.types, k, s, m, t, is_null(symbols, b.get()));
            settle(found, *n, with_first(*n, *expr_note(c.get())), judged)
        }
        Expr::Comma(n, a, b) => {
            let s = expr(symbols, a.get(), found);
            let t = expr(symbols, b.get(), found);
            settle(found, *n, alone(*n), comma(&symbols.types, s, t))
        }
        Expr::Call(n, f, es) => {
            let t = expr(symbols, f.get(), found);
            let state = called(&symbols.types, t);
            let state = arguments(symbols, es.as_slice(), state, found);
            settle(found, *n, alone(*n), call(&symbols.types, state))
        }
        Expr::Member(n, e, x) => {
            let t = expr(symbols, e.get(), found);
            let selection = member(&symbols.types, &symbols.structs, t, x.as_str());
            settle_member(found, *n, selection)
        }
        Expr::Arrow(n, e, x) => {
            let t = expr(symbols, e.get(), found);
            let selection = arrow(&symbols.types, &symbols.structs, t, x.as_str());
            settle_member(found, *n, selection)
        }
        Expr::Index(n, a, i) => {
            let s = expr(symbols, a.get(), found);
            let t = expr(symbols, i.get(), found);
            let judged = index(&symbols.types, &symbols.structs, s, t);
            settle(found, *n, alone(*n), judged)
        }
        Expr::Cast(n, target, e) => {
            let t = expr(symbols, e.get(), found);
            let number = type_note(target.get()).number;
            let null = makes_null(symbols, number, e.get());
            let judged = cast(&symbols.types, kind_at(symbols, number), null, t);
            settle(found, *n, alone(*n), judged)
        }
        Expr::SizeExpr(n, e) => {
            let t = expr(symbols, e.get(), found);
            let judged = size_of(&symbols.types, &symbols.structs, t);
            settle(found, *n, alone(*n), judged)
        }
        Expr::SizeType(n, target) => {
            let t = type_at(symbols, type_note(target.get()).number);
            let judged = size_of(&symbols.types, &symbols.structs, t);
            settle(found, *n, alone(*n), judged)
        }
    }
}

// A call after these arguments. C38 at each that doesn't fit its parameter.
#[cycle(walk)]
fn arguments(
    symbols: &Symbols,
    es: &[Expr<Counted>],
    state: Passing,
    found: &mut Findings,
) -> Passing
    ensures value { result ≡ spec.passed symbols.now state (exprs_of es.now) }
    ensures found { found.new ≡ spec.all_noted symbols.now state (exprs_of es.now) found.old }
{
    let mut state = state;
    for e in es {
        let t = expr(symbols, e, found);
        check_argument(symbols, found, parameter(&symbols.types, state), e, t);
        state = pass_one(&symbols.types, state, t);
    }
    state
}

// The bytes of string literals that stand side by side, and the zero behind them.
fn string_length(parts: &[Bytes]) -> u64
    ensures { result ≡ spec.string_length parts.now }
{
    let mut length: u64 = 1;
    for part in parts {
        length = length.saturating_add(part.bytes().len() as u64);
    }
    length
}
