// Numbers for expressions, and for what stands in one cycle with them.
ghost use Rattle.std.specs.Prelude.{◌≡◌, ◌+◌, ◌<◌, ◌^◌, map, IfOk, OnOk};
ghost use Rattle.cc_tree.specs.Nodes as nodes;
ghost use Rattle.cc_tree.specs.Views.{view, view_type, view_spec, view_member, view_constant, view_declarator, exprs_of, option_of, types_of, specs_of, members_of, constants_of, declarators_of};
ghost use Rattle.cc_tree_notes.specs.Numbering as spec;
ghost use Rattle.cc_tree_notes.specs.Numbering.{numbered_expr};

use crate::boxes::boxed;
use crate::note::Counted;
use cc_base::{Memory, Spot};
use cc_tree::{Constant, Declarator, Expr, Member, Spec, TypeName};
use cc_tree_copies::{copied_strings, copied_tag, copied_text};
use sqlite_items::{Boxed, Items};
use std::alloc::Global;

/// The expression with a number in each node, the first of which is `next`, which is then the number after the last.
/// Fails where memory is wanting; `next` is then any number.
#[cycle(number)]
pub fn number_expr(alloc: Global, e: &Expr<Spot>, next: &mut u32) -> Result<Expr<Counted>, Memory>
    requires { next.old + nodes.expr_nodes (view e.now) < 2 ^ 32 }
    ensures tree { IfOk result (λ r. (view r, next.new) ≡ numbered_expr (view e.now) next.old) }
    ensures next { OnOk result (next.new ≡ next.old + nodes.expr_nodes (view e.now)) }
{
    match e {
        Expr::Name(spot, name) => {
            let note = Counted::new(*spot, next);
            Ok(Expr::Name(note, copied_text(alloc, name)?))
        }
        Expr::Int(spot, value, kind) => Ok(Expr::Int(Counted::new(*spot, next), *value, *kind)),
        Expr::Char(spot, value) => Ok(Expr::Char(Counted::new(*spot, next), *value)),
        Expr::Str(spot, strings) => {
            let note = Counted::new(*spot, next);
            Ok(Expr::Str(note, copied_strings(alloc, strings)?))
        }
        Expr::Paren(spot, e) => {
            let note = Counted::new(*spot, next);
            let e = boxed_expr(alloc, e.get(), next)?;
            Ok(Expr::Paren(note, e))
        }
        Expr::Unary(spot, op, e) => {
            let note = Counted::new(*spot, next);
            let e = boxed_expr(alloc, e.get(), next)?;
            Ok(Expr::Unary(note, *op, e))
        }
        Expr::Binary(spot, op, left, right) => {
            let note = Counted::new(*spot, next);
            let left = boxed_expr(alloc, left.get(), next)?;
            let right = boxed_expr(alloc, right.get(), next)?;
            Ok(Expr::Binary(note, *op, left, right))
        }
        Expr::Assign(spot, op, left, right) => {
            let note = Counted::new(*spot, next);
            let left = boxed_expr(alloc, left.get(), next)?;
            let right = boxed_expr(alloc, right.get(), next)?;
            Ok(Expr::Assign(note, *op, left, right))
        }
        Expr::Step(spot, op, side, e) => {
            let note = Counted::new(*spot, next);
            let e = boxed_expr(alloc, e.get(), next)?;
            Ok(Expr::Step(note, *op, *side, e))
        }
        Expr::Cond(spot, test, yes, no) => {
            let note = Counted::new(*spot, next);
            let test = boxed_expr(alloc, test.get(), next)?;
            let yes = boxed_expr(alloc, yes.get(), next)?;
            let no = boxed_expr(alloc, no.get(), next)?;
            Ok(Expr::Cond(note, test, yes, no))
        }
        Expr::Comma(spot, left, right) => {
            let note = Counted::new(*spot, next);
            let left = boxed_expr(alloc, left.get(), next)?;
            let right = boxed_expr(alloc, right.get(), next)?;
            Ok(Expr::Comma(note, left, right))
        }
        Expr::Call(spot, f, args) => {
            let note = Counted::new(*spot, next);
            let f = boxed_expr(alloc, f.get(), next)?;
            let args = number_exprs(alloc, args.as_slice(), next)?;
            Ok(Expr::Call(note, f, args))
        }
        Expr::Member(spot, e, name) => {
            let note = Counted::new(*spot, next);
            let e = boxed_expr(alloc, e.get(), next)?;
            Ok(Expr::Member(note, e, copied_text(alloc, name)?))
        }
        Expr::Arrow(spot, e, name) => {
            let note = Counted::new(*spot, next);
            let e = boxed_expr(alloc, e.get(), next)?;
            Ok(Expr::Arrow(note, e, copied_text(alloc, name)?))
        }
        Expr::Index(spot, array, at) => {
            let note = Counted::new(*spot, next);
            let array = boxed_expr(alloc, array.get(), next)?;
            let at = boxed_expr(alloc, at.get(), next)?;
            Ok(Expr::Index(note, array, at))
        }
        Expr::Cast(spot, to, e) => {
            let note = Counted::new(*spot, next);
            let to = boxed_type(alloc, to.get(), next)?;
            let e = boxed_expr(alloc, e.get(), next)?;
            Ok(Expr::Cast(note, to, e))
        }
        Expr::SizeExpr(spot, e) => {
            let note = Counted::new(*spot, next);
            let e = boxed_expr(alloc, e.get(), next)?;
            Ok(Expr::SizeExpr(note, e))
        }
        Expr::SizeType(spot, of) => {
            let note = Counted::new(*spot, next);
            let of = boxed_type(alloc, of.get(), next)?;
            Ok(Expr::SizeType(note, of))
        }
    }
}

// A tree that waits for the next one stands in memory of its own: where the next fails, it is dropped there by a call.
#[cycle(number)]
pub(crate) fn boxed_expr(
    alloc: Global,
    e: &Expr<Spot>,
    next: &mut u32,
) -> Result<Boxed<Expr<Counted>>, Memory>
    requires { next.old + nodes.expr_nodes (view e.now) < 2 ^ 32 }
    ensures tree { IfOk result (λ r. (view r, next.new) ≡ spec.numbered_expr (view e.now) next.old) }
    ensures next { OnOk result (next.new ≡ next.old + nodes.expr_nodes (view e.now)) }
{
    let e = number_expr(alloc, e, next)?;
    boxed(alloc, e)
}

#[cycle(number)]
fn number_exprs(
    alloc: Global,
    es: &[Expr<Spot>],
    next: &mut u32,
) -> Result<Items<Expr<Counted>>, Memory>
    requires { next.old + nodes.exprs_nodes (exprs_of es.now) < 2 ^ 32 }
    ensures tree { IfOk result (λ r. (map view r, next.new) ≡ spec.numbered_exprs (exprs_of es.now) next.old) }
    ensures next { OnOk result (next.new ≡ next.old + nodes.exprs_nodes (exprs_of es.now)) }
{
    let mut numbered = Items::new(alloc);
    for e in es {
        numbered.push(number_expr(alloc, e, next)?)?;
    }
    Ok(numbered)
}

#[cycle(number)]
fn number_option(
    alloc: Global,
    e: &Option<Boxed<Expr<Spot>>>,
    next: &mut u32,
) -> Result<Option<Boxed<Expr<Counted>>>, Memory>
    requires { next.old + nodes.option_nodes (option_of e.now) < 2 ^ 32 }
    ensures tree { IfOk result (λ r. (option_of r, next.new) ≡ spec.numbered_option (option_of e.now) next.old) }
    ensures next { OnOk result (next.new ≡ next.old + nodes.option_nodes (option_of e.now)) }
{
    match e {
        None => Ok(None),
        Some(e) => Ok(Some(boxed_expr(alloc, e.get(), next)?)),
    }
}

#[cycle(number)]
fn number_type(
    alloc: Global,
    t: &TypeName<Spot>,
    next: &mut u32,
) -> Result<TypeName<Counted>, Memory>
    requires { next.old + nodes.type_nodes (view_type t.now) < 2 ^ 32 }
    ensures tree { IfOk result (λ r. (view_type r, next.new) ≡ spec.numbered_type (view_type t.now) next.old) }
    ensures next { OnOk result (next.new ≡ next.old + nodes.type_nodes (view_type t.now)) }
{
    let note = Counted::new(t.note, next);
    let specs = number_specs(alloc, t.specs.as_slice(), next)?;
    let declarator = number_declarator(alloc, &t.declarator, next)?;
    Ok(TypeName {
        note,
        specs,
        declarator,
    })
}

#[cycle(number)]
fn boxed_type(
    alloc: Global,
    t: &TypeName<Spot>,
    next: &mut u32,
) -> Result<Boxed<TypeName<Counted>>, Memory>
    requires { next.old + nodes.type_nodes (view_type t.now) < 2 ^ 32 }
    ensures tree { IfOk result (λ r. (view_type r, next.new) ≡ spec.numbered_type (view_type t.now) next.old) }
    ensures next { OnOk result (next.new ≡ next.old + nodes.type_nodes (view_type t.now)) }
{
    let t = number_type(alloc, t, next)?;
    boxed(alloc, t)
}

#[cycle(number)]
fn number_types(
    alloc: Global,
    ts: &[TypeName<Spot>],
    next: &mut u32,
) -> Result<Items<TypeName<Counted>>, Memory>
    requires { next.old + nodes.types_nodes (types_of ts.now) < 2 ^ 32 }
    ensures tree { IfOk result (λ r. (map view_type r, next.new) ≡ spec.numbered_types (types_of ts.now) next.old) }
    ensures next { OnOk result (next.new ≡ next.old + nodes.types_nodes (types_of ts.now)) }
{
    let mut numbered = Items::new(alloc);
    for t in ts {
        numbered.push(number_type(alloc, t, next)?)?;
    }
    Ok(numbered)
}

#[cycle(number)]
fn number_spec(alloc: Global, s: &Spec<Spot>, next: &mut u32) -> Result<Spec<Counted>, Memory>
    requires { next.old + nodes.spec_nodes (view_spec s.now) < 2 ^ 32 }
    ensures tree { IfOk result (λ r. (view_spec r, next.new) ≡ spec.numbered_spec (view_spec s.now) next.old) }
    ensures next { OnOk result (next.new ≡ next.old + nodes.spec_nodes (view_spec s.now)) }
{
    match s {
        Spec::Word(spot, word) => Ok(Spec::Word(Counted::new(*spot, next), *word)),
        Spec::Named(spot, name) => {
            let note = Counted::new(*spot, next);
            Ok(Spec::Named(note, copied_text(alloc, name)?))
        }
        Spec::Struct(spot, tag, members) => {
            let note = Counted::new(*spot, next);
            let tag = copied_tag(alloc, tag)?;
            Ok(Spec::Struct(note, tag, number_members(alloc, members.as_slice(), next)?))
        }
        Spec::Enum(spot, tag, constants, trailing) => {
            let note = Counted::new(*spot, next);
            let tag = copied_tag(alloc, tag)?;
            let constants = number_constants(alloc, constants.as_slice(), next)?;
            Ok(Spec::Enum(note, tag, constants, *trailing))
        }
    }
}

#[cycle(number)]
pub(crate) fn number_specs(
    alloc: Global,
    ss: &[Spec<Spot>],
    next: &mut u32,
) -> Result<Items<Spec<Counted>>, Memory>
    requires { next.old + nodes.specs_nodes (specs_of ss.now) < 2 ^ 32 }
    ensures tree { IfOk result (λ r. (map view_spec r, next.new) ≡ spec.numbered_specs (specs_of ss.now) next.old) }
    ensures next { OnOk result (next.new ≡ next.old + nodes.specs_nodes (specs_of ss.now)) }
{
    let mut numbered = Items::new(alloc);
    for s in ss {
        numbered.push(number_spec(alloc, s, next)?)?;
    }
    Ok(numbered)
}

#[cycle(number)]
fn number_member(alloc: Global, m: &Member<Spot>, next: &mut u32) -> Result<Member<Counted>, Memory>
    requires { next.old + nodes.member_nodes (view_member m.now) < 2 ^ 32 }
    ensures tree { IfOk result (λ r. (view_member r, next.new) ≡ spec.numbered_member (view_member m.now) next.old) }
    ensures next { OnOk result (next.new ≡ next.old + nodes.member_nodes (view_member m.now)) }
{
    let note = Counted::new(m.note, next);
    let specs = number_specs(alloc, m.specs.as_slice(), next)?;
    let declarators = number_declarators(alloc, m.declarators.as_slice(), next)?;
    Ok(Member {
        note,
        specs,
        declarators,
    })
}

#[cycle(number)]
fn number_members(
    alloc: Global,
    ms: &[Member<Spot>],
    next: &mut u32,
) -> Result<Items<Member<Counted>>, Memory>
    requires { next.old + nodes.members_nodes (members_of ms.now) < 2 ^ 32 }
    ensures tree { IfOk result (λ r. (map view_member r, next.new) ≡ spec.numbered_members (members_of ms.now) next.old) }
    ensures next { OnOk result (next.new ≡ next.old + nodes.members_nodes (members_of ms.now)) }
{
    let mut numbered = Items::new(alloc);
    for m in ms {
        numbered.push(number_member(alloc, m, next)?)?;
    }
    Ok(numbered)
}

#[cycle(number)]
fn number_constant(
    alloc: Global,
    c: &Constant<Spot>,
    next: &mut u32,
) -> Result<Constant<Counted>, Memory>
    requires { next.old + nodes.constant_nodes (view_constant c.now) < 2 ^ 32 }
    ensures tree { IfOk result (λ r. (view_constant r, next.new) ≡ spec.numbered_constant (view_constant c.now) next.old) }
    ensures next { OnOk result (next.new ≡ next.old + nodes.constant_nodes (view_constant c.now)) }
{
    let note = Counted::new(c.note, next);
    let name = copied_text(alloc, &c.name)?;
    let value = number_option(alloc, &c.value, next)?;
    Ok(Constant { note, name, value })
}

#[cycle(number)]
fn number_constants(
    alloc: Global,
    cs: &[Constant<Spot>],
    next: &mut u32,
) -> Result<Items<Constant<Counted>>, Memory>
    requires { next.old + nodes.constants_nodes (constants_of cs.now) < 2 ^ 32 }
    ensures tree { IfOk result (λ r. (map view_constant r, next.new) ≡ spec.numbered_constants (constants_of cs.now) next.old) }
    ensures next { OnOk result (next.new ≡ next.old + nodes.constants_nodes (constants_of cs.now)) }
{
    let mut numbered = Items::new(alloc);
    for c in cs {
        numbered.push(number_constant(alloc, c, next)?)?;
    }
    Ok(numbered)
}

#[cycle(number)]
pub(crate) fn number_declarator(
    alloc: Global,
    d: &Declarator<Spot>,
    next: &mut u32,
) -> Result<Declarator<Counted>, Memory>
    requires { next.old + nodes.declarator_nodes (view_declarator d.now) < 2 ^ 32 }
    ensures tree { IfOk result (λ r. (view_declarator r, next.new) ≡ spec.numbered_declarator (view_declarator d.now) next.old) }
    ensures next { OnOk result (next.new ≡ next.old + nodes.declarator_nodes (view_declarator d.now)) }
{
    match d {
        Declarator::Name(spot, name) => {
            let note = Counted::new(*spot, next);
            Ok(Declarator::Name(note, copied_text(alloc, name)?))
        }
        Declarator::Nameless => Ok(Declarator::Nameless),
        Declarator::Pointer(spot, consts, d) => {
            let note = Counted::new(*spot, next);
            let d = boxed_declarator(alloc, d.get(), next)?;
            Ok(Declarator::Pointer(note, *consts, d))
        }
        Declarator::Array(spot, d, length) => {
            let note = Counted::new(*spot, next);
            let d = boxed_declarator(alloc, d.get(), next)?;
            let length = number_option(alloc, length, next)?;
            Ok(Declarator::Array(note, d, length))
        }
        Declarator::Func(spot, d, parameters) => {
            let note = Counted::new(*spot, next);
            let d = boxed_declarator(alloc, d.get(), next)?;
            let parameters = number_types(alloc, parameters.as_slice(), next)?;
            Ok(Declarator::Func(note, d, parameters))
        }
        Declarator::Paren(spot, d) => {
            let note = Counted::new(*spot, next);
            let d = boxed_declarator(alloc, d.get(), next)?;
            Ok(Declarator::Paren(note, d))
        }
    }
}

#[cycle(number)]
pub(crate) fn boxed_declarator(
    alloc: Global,
    d: &Declarator<Spot>,
    next: &mut u32,
) -> Result<Boxed<Declarator<Counted>>, Memory>
    requires { next.old + nodes.declarator_nodes (view_declarator d.now) < 2 ^ 32 }
    ensures tree { IfOk result (λ r. (view_declarator r, next.new) ≡ spec.numbered_declarator (view_declarator d.now) next.old) }
    ensures next { OnOk result (next.new ≡ next.old + nodes.declarator_nodes (view_declarator d.now)) }
{
    let d = number_declarator(alloc, d, next)?;
    boxed(alloc, d)
}

#[cycle(number)]
fn number_declarators(
    alloc: Global,
    ds: &[Declarator<Spot>],
    next: &mut u32,
) -> Result<Items<Declarator<Counted>>, Memory>
    requires { next.old + nodes.declarators_nodes (declarators_of ds.now) < 2 ^ 32 }
    ensures tree { IfOk result (λ r. (map view_declarator r, next.new) ≡ spec.numbered_declarators (declarators_of ds.now) next.old) }
    ensures next { OnOk result (next.new ≡ next.old + nodes.declarators_nodes (declarators_of ds.now)) }
{
    let mut numbered = Items::new(alloc);
    for d in ds {
        numbered.push(number_declarator(alloc, d, next)?)?;
    }
    Ok(numbered)
}
