// Whether expressions, and what stands in one cycle with them, are no deeper than a number.
ghost use Rattle.std.specs.Prelude.{◌≤◌, ◌+◌, ◌↔◌, IsTrue};
ghost use Rattle.cc_tree.specs.Views.{view, view_type, view_spec, view_member, view_constant, view_declarator, exprs_of, option_of, types_of, specs_of, members_of, constants_of, declarators_of};
ghost use Rattle.cc_tree.specs.Depth as spec;

use cc_tree::{Constant, Declarator, Expr, Member, Spec, TypeName};
use sqlite_items::Boxed;

/// Whether an expression is no deeper than `most` nodes, itself included. The walk goes no deeper either.
#[cycle(fits)]
pub fn expr_fits<N>(e: &Expr<N>, most: u32) -> bool
    ensures { IsTrue result ↔ (spec.expr_depth (view e.now) ≤ most) }
{
    let Some(inside) = most.checked_sub(1) else {
        return false;
    };
    match e {
        Expr::Name(_, _) | Expr::Int(_, _, _) | Expr::Char(_, _) | Expr::Str(_, _) => true,
        Expr::Paren(_, e) => expr_fits(e.get(), inside),
        Expr::Unary(_, _, e) => expr_fits(e.get(), inside),
        Expr::Binary(_, _, a, b) => expr_fits(a.get(), inside) && expr_fits(b.get(), inside),
        Expr::Assign(_, _, a, b) => expr_fits(a.get(), inside) && expr_fits(b.get(), inside),
        Expr::Step(_, _, _, e) => expr_fits(e.get(), inside),
        Expr::Cond(_, c, a, b) => {
            expr_fits(c.get(), inside) && expr_fits(a.get(), inside) && expr_fits(b.get(), inside)
        }
        Expr::Comma(_, a, b) => expr_fits(a.get(), inside) && expr_fits(b.get(), inside),
        Expr::Call(_, f, es) => expr_fits(f.get(), inside) && exprs_fit(es.as_slice(), inside),
        Expr::Member(_, e, _) => expr_fits(e.get(), inside),
        Expr::Arrow(_, e, _) => expr_fits(e.get(), inside),
        Expr::Index(_, a, i) => expr_fits(a.get(), inside) && expr_fits(i.get(), inside),
        Expr::Cast(_, t, e) => type_fits(t.get(), inside) && expr_fits(e.get(), inside),
        Expr::SizeExpr(_, e) => expr_fits(e.get(), inside),
        Expr::SizeType(_, t) => type_fits(t.get(), inside),
    }
}

#[cycle(fits)]
fn exprs_fit<N>(es: &[Expr<N>], most: u32) -> bool
    ensures { IsTrue result ↔ (spec.exprs_depth (exprs_of es.now) ≤ most) }
{
    for e in es {
        if !expr_fits(e, most) {
            return false;
        }
    }
    true
}

#[cycle(fits)]
fn option_fits<N>(e: &Option<Boxed<Expr<N>>>, most: u32) -> bool
    ensures { IsTrue result ↔ (spec.option_depth (option_of e.now) ≤ most) }
{
    match e {
        None => true,
        Some(e) => expr_fits(e.get(), most),
    }
}

/// Whether a type name is no deeper than `most` nodes. It doesn't count itself, nor does a specifier of one word.
#[cycle(fits)]
pub fn type_fits<N>(t: &TypeName<N>, most: u32) -> bool
    ensures { IsTrue result ↔ (spec.type_depth (view_type t.now) ≤ most) }
{
    specs_fit(t.specs.as_slice(), most) && declarator_fits(&t.declarator, most)
}

#[cycle(fits)]
fn types_fit<N>(ts: &[TypeName<N>], most: u32) -> bool
    ensures { IsTrue result ↔ (spec.types_depth (types_of ts.now) ≤ most) }
{
    for t in ts {
        if !type_fits(t, most) {
            return false;
        }
    }
    true
}

#[cycle(fits)]
fn spec_fits<N>(s: &Spec<N>, most: u32) -> bool
    ensures { IsTrue result ↔ (spec.spec_depth (view_spec s.now) ≤ most) }
{
    match s {
        Spec::Word(_, _) | Spec::Named(_, _) => true,
        Spec::Struct(_, _, ms) => members_fit(ms.as_slice(), most),
        Spec::Enum(_, _, cs, _) => constants_fit(cs.as_slice(), most),
    }
}

/// Whether each of the specifiers is no deeper than `most` nodes. They don't count themselves; a list in braces does.
#[cycle(fits)]
pub fn specs_fit<N>(ss: &[Spec<N>], most: u32) -> bool
    ensures { IsTrue result ↔ (spec.specs_depth (specs_of ss.now) ≤ most) }
{
    for s in ss {
        if !spec_fits(s, most) {
            return false;
        }
    }
    true
}

// A list in braces counts.
#[cycle(fits)]
fn member_fits<N>(m: &Member<N>, most: u32) -> bool
    ensures { IsTrue result ↔ (spec.member_depth (view_member m.now) + 1 ≤ most) }
{
    let Some(inside) = most.checked_sub(1) else {
        return false;
    };
    specs_fit(m.specs.as_slice(), inside) && declarators_fit(m.declarators.as_slice(), inside)
}

#[cycle(fits)]
fn members_fit<N>(ms: &[Member<N>], most: u32) -> bool
    ensures { IsTrue result ↔ (spec.members_depth (members_of ms.now) ≤ most) }
{
    for m in ms {
        if !member_fits(m, most) {
            return false;
        }
    }
    true
}

#[cycle(fits)]
fn constant_fits<N>(c: &Constant<N>, most: u32) -> bool
    ensures { IsTrue result ↔ (spec.constant_depth (view_constant c.now) + 1 ≤ most) }
{
    let Some(inside) = most.checked_sub(1) else {
        return false;
    };
    option_fits(&c.value, inside)
}

#[cycle(fits)]
fn constants_fit<N>(cs: &[Constant<N>], most: u32) -> bool
    ensures { IsTrue result ↔ (spec.constants_depth (constants_of cs.now) ≤ most) }
{
    for c in cs {
        if !constant_fits(c, most) {
            return false;
        }
    }
    true
}

/// Whether a declarator is no deeper than `most` nodes. Each form counts, and so does the name; where no name is, nothing.
#[cycle(fits)]
pub fn declarator_fits<N>(d: &Declarator<N>, most: u32) -> bool
    ensures { IsTrue result ↔ (spec.declarator_depth (view_declarator d.now) ≤ most) }
{
    if let Declarator::Nameless = d {
        return true;
    }
    let Some(inside) = most.checked_sub(1) else {
        return false;
    };
    match d {
        Declarator::Name(_, _) | Declarator::Nameless => true,
        Declarator::Pointer(_, _, d) => declarator_fits(d.get(), inside),
        Declarator::Array(_, d, length) => declarator_fits(d.get(), inside)
            && option_fits(length, inside),
        Declarator::Func(_, d, ps) => declarator_fits(d.get(), inside)
            && types_fit(ps.as_slice(), inside),
        Declarator::Paren(_, d) => declarator_fits(d.get(), inside),
    }
}

#[cycle(fits)]
fn declarators_fit<N>(ds: &[Declarator<N>], most: u32) -> bool
    ensures { IsTrue result ↔ (spec.declarators_depth (declarators_of ds.now) ≤ most) }
{
    for d in ds {
        if !declarator_fits(d, most) {
            return false;
        }
    }
    true
}
