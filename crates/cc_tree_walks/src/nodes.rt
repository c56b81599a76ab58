// How many nodes expressions have, and what stands in one cycle with them.
ghost use Rattle.std.specs.Prelude.{◌≡◌, ◌-◌, ◌^◌, min};
ghost use Rattle.cc_tree.specs.Views.{view, view_type, view_spec, view_member, view_constant, view_declarator, exprs_of, option_of, types_of, specs_of, members_of, constants_of, declarators_of};
ghost use Rattle.cc_tree.specs.Nodes as spec;

use cc_tree::{Constant, Declarator, Expr, Member, Spec, TypeName};
use sqlite_items::Boxed;

/// How many nodes the expression has, itself included; where there are 2^64 or more, 2^64 - 1.
#[cycle(nodes)]
pub fn expr_nodes<N>(e: &Expr<N>) -> u64
    ensures { result ≡ min (spec.expr_nodes (view e.now)) (2 ^ 64 - 1) }
{
    match e {
        Expr::Name(_, _) | Expr::Int(_, _, _) | Expr::Char(_, _) | Expr::Str(_, _) => 1,
        Expr::Paren(_, e) => expr_nodes(e.get()).saturating_add(1),
        Expr::Unary(_, _, e) => expr_nodes(e.get()).saturating_add(1),
        Expr::Binary(_, _, a, b) => expr_nodes(a.get())
            .saturating_add(expr_nodes(b.get()))
            .saturating_add(1),
        Expr::Assign(_, _, a, b) => expr_nodes(a.get())
            .saturating_add(expr_nodes(b.get()))
            .saturating_add(1),
        Expr::Step(_, _, _, e) => expr_nodes(e.get()).saturating_add(1),
        Expr::Cond(_, c, a, b) => {
            expr_nodes(c.get())
                .saturating_add(expr_nodes(a.get()))
                .saturating_add(expr_nodes(b.get()))
                .saturating_add(1)
        }
        Expr::Comma(_, a, b) => expr_nodes(a.get())
            .saturating_add(expr_nodes(b.get()))
            .saturating_add(1),
        Expr::Call(_, f, es) => expr_nodes(f.get())
            .saturating_add(exprs_nodes(es.as_slice()))
            .saturating_add(1),
        Expr::Member(_, e, _) => expr_nodes(e.get()).saturating_add(1),
        Expr::Arrow(_, e, _) => expr_nodes(e.get()).saturating_add(1),
        Expr::Index(_, a, i) => expr_nodes(a.get())
            .saturating_add(expr_nodes(i.get()))
            .saturating_add(1),
        Expr::Cast(_, t, e) => type_nodes(t.get())
            .saturating_add(expr_nodes(e.get()))
            .saturating_add(1),
        Expr::SizeExpr(_, e) => expr_nodes(e.get()).saturating_add(1),
        Expr::SizeType(_, t) => type_nodes(t.get()).saturating_add(1),
    }
}

#[cycle(nodes)]
fn exprs_nodes<N>(es: &[Expr<N>]) -> u64
    ensures { result ≡ min (spec.exprs_nodes (exprs_of es.now)) (2 ^ 64 - 1) }
{
    let mut nodes: u64 = 0;
    for e in es {
        nodes = nodes.saturating_add(expr_nodes(e));
    }
    nodes
}

#[cycle(nodes)]
fn option_nodes<N>(e: &Option<Boxed<Expr<N>>>) -> u64
    ensures { result ≡ min (spec.option_nodes (option_of e.now)) (2 ^ 64 - 1) }
{
    match e {
        None => 0,
        Some(e) => expr_nodes(e.get()),
    }
}

/// How many nodes the type name has, itself included; where there are 2^64 or more, 2^64 - 1.
#[cycle(nodes)]
pub fn type_nodes<N>(t: &TypeName<N>) -> u64
    ensures { result ≡ min (spec.type_nodes (view_type t.now)) (2 ^ 64 - 1) }
{
    specs_nodes(t.specs.as_slice())
        .saturating_add(declarator_nodes(&t.declarator))
        .saturating_add(1)
}

#[cycle(nodes)]
fn types_nodes<N>(ts: &[TypeName<N>]) -> u64
    ensures { result ≡ min (spec.types_nodes (types_of ts.now)) (2 ^ 64 - 1) }
{
    let mut nodes: u64 = 0;
    for t in ts {
        nodes = nodes.saturating_add(type_nodes(t));
    }
    nodes
}

#[cycle(nodes)]
fn spec_nodes<N>(s: &Spec<N>) -> u64
    ensures { result ≡ min (spec.spec_nodes (view_spec s.now)) (2 ^ 64 - 1) }
{
    match s {
        Spec::Word(_, _) | Spec::Named(_, _) => 1,
        Spec::Struct(_, _, ms) => members_nodes(ms.as_slice()).saturating_add(1),
        Spec::Enum(_, _, cs, _) => constants_nodes(cs.as_slice()).saturating_add(1),
    }
}

/// How many nodes the specifiers have together; where there are 2^64 or more, 2^64 - 1.
#[cycle(nodes)]
pub fn specs_nodes<N>(ss: &[Spec<N>]) -> u64
    ensures { result ≡ min (spec.specs_nodes (specs_of ss.now)) (2 ^ 64 - 1) }
{
    let mut nodes: u64 = 0;
    for s in ss {
        nodes = nodes.saturating_add(spec_nodes(s));
    }
    nodes
}

#[cycle(nodes)]
fn member_nodes<N>(m: &Member<N>) -> u64
    ensures { result ≡ min (spec.member_nodes (view_member m.now)) (2 ^ 64 - 1) }
{
    specs_nodes(m.specs.as_slice())
        .saturating_add(declarators_nodes(m.declarators.as_slice()))
        .saturating_add(1)
}

#[cycle(nodes)]
fn members_nodes<N>(ms: &[Member<N>]) -> u64
    ensures { result ≡ min (spec.members_nodes (members_of ms.now)) (2 ^ 64 - 1) }
{
    let mut nodes: u64 = 0;
    for m in ms {
        nodes = nodes.saturating_add(member_nodes(m));
    }
    nodes
}

#[cycle(nodes)]
fn constant_nodes<N>(c: &Constant<N>) -> u64
    ensures { result ≡ min (spec.constant_nodes (view_constant c.now)) (2 ^ 64 - 1) }
{
    option_nodes(&c.value).saturating_add(1)
}

#[cycle(nodes)]
fn constants_nodes<N>(cs: &[Constant<N>]) -> u64
    ensures { result ≡ min (spec.constants_nodes (constants_of cs.now)) (2 ^ 64 - 1) }
{
    let mut nodes: u64 = 0;
    for c in cs {
        nodes = nodes.saturating_add(constant_nodes(c));
    }
    nodes
}

/// How many nodes the declarator has, one for each form and for the name; where there are 2^64 or more, 2^64 - 1.
#[cycle(nodes)]
pub fn declarator_nodes<N>(d: &Declarator<N>) -> u64
    ensures { result ≡ min (spec.declarator_nodes (view_declarator d.now)) (2 ^ 64 - 1) }
{
    match d {
        Declarator::Name(_, _) => 1,
        Declarator::Nameless => 0,
        Declarator::Pointer(_, _, d) => declarator_nodes(d.get()).saturating_add(1),
        Declarator::Array(_, d, length) => declarator_nodes(d.get())
            .saturating_add(option_nodes(length))
            .saturating_add(1),
        Declarator::Func(_, d, ps) => declarator_nodes(d.get())
            .saturating_add(types_nodes(ps.as_slice()))
            .saturating_add(1),
        Declarator::Paren(_, d) => declarator_nodes(d.get()).saturating_add(1),
    }
}

#[cycle(nodes)]
fn declarators_nodes<N>(ds: &[Declarator<N>]) -> u64
    ensures { result ≡ min (spec.declarators_nodes (declarators_of ds.now)) (2 ^ 64 - 1) }
{
    let mut nodes: u64 = 0;
    for d in ds {
        nodes = nodes.saturating_add(declarator_nodes(d));
    }
    nodes
}
