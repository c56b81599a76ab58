// What each node asks of the facts.
ghost use Rattle.std.specs.Prelude.{◌≡◌, ◌<◌, ◌^◌, [], ◌∷◌, ◌+◌, length, IfOk, OnOk};
ghost use Rattle.cc_points_base.specs.declared.constraint.Constraint.TheVariants.{Joins, Watches};
ghost use Rattle.cc_points_base.specs.Layouts.{IsSmall, layout_of};
ghost use Rattle.cc_points_base.specs.Saying as spec;

use crate::constraint::{Constraint, Watch};
use crate::layout::{Layout, copies_in, lay_out};
use crate::parts::part_list;
use crate::view::{Class, View, What};
use std::alloc::{AllocError, Global};

fn push(out: &mut Vec<Constraint>, c: Constraint) -> Result<(), AllocError>
    ensures { OnOk result (out.new.items ≡ spec.all_pushed (c ∷ []) out.old.items) }
{
    out.push(c)?;
    Ok(())
}

fn passes(out: &mut Vec<Constraint>, layout: Layout, f: u32, args: &[u32]) -> Result<(), AllocError>
    requires small { IsSmall layout }
    requires args { length args.now < 2 ^ 30 }
    ensures { OnOk result (out.new.items ≡ spec.all_pushed (spec.passes layout f args.now 0) out.old.items) }
{
    for (k, arg) in args.iter().enumerate() {
        push(
            out,
            Constraint::Watches(layout.value(f), Watch::Passes(k as u32, layout.value(*arg))),
        )?;
    }
    Ok(())
}

fn copies(
    out: &mut Vec<Constraint>,
    layout: Layout,
    id: u32,
    k: u32,
    l: u32,
    r: u32,
    paths: &[u32],
) -> Result<(), AllocError>
    requires small { IsSmall layout }
    requires paths { k + length paths.now < 2 ^ 31 }
    ensures { OnOk result (out.new.items ≡ spec.all_pushed (spec.copies layout id k l r paths.now 0) out.old.items) }
{
    for (j, w) in paths.iter().enumerate() {
        let copy = layout.copy(k + j as u32);
        watches(out, layout.place(r), Watch::Copies(id, *w, copy))?;
        watches(out, layout.place(l), Watch::Pastes(id, *w, copy))?;
    }
    Ok(())
}

fn stores(
    out: &mut Vec<Constraint>,
    layout: Layout,
    lists: &[u32],
    k: u32,
    class: Class,
    l: u32,
    r: u32,
) -> Result<(), AllocError>
    requires small { IsSmall layout }
    requires lists { length lists.now < 2 ^ 30 }
    requires copies { k < 2 ^ 30 }
    ensures { OnOk result (out.new.items ≡ spec.all_pushed (spec.stores layout lists.now k class l r) out.old.items) }
{
    match class {
        Class::Pointer => push(
            out,
            Constraint::Watches(layout.place(l), Watch::Stores(layout.value(r))),
        ),
        Class::Struct(id, paths) => copies(out, layout, id, k, l, r, part_list(lists, paths)),
        _ => Ok(()),
    }
}

fn reads(
    out: &mut Vec<Constraint>,
    layout: Layout,
    n: u32,
    class: Class,
    used: bool,
) -> Result<(), AllocError>
    requires small { IsSmall layout }
    ensures { OnOk result (out.new.items ≡ spec.all_pushed (spec.reads layout n class used) out.old.items) }
{
    if !used {
        return Ok(());
    }
    match class {
        Class::Pointer => push(
            out,
            Constraint::Watches(layout.place(n), Watch::Loads(layout.value(n))),
        ),
        Class::Array => push(
            out,
            Constraint::Watches(layout.place(n), Watch::Element(layout.value(n))),
        ),
        _ => Ok(()),
    }
}

// One holder has all targets of another one.
fn joins(out: &mut Vec<Constraint>, from: u32, to: u32) -> Result<(), AllocError>
    ensures { OnOk result (out.new.items ≡ spec.all_pushed (Joins from to ∷ []) out.old.items) }
{
    push(out, Constraint::Joins(from, to))
}

// What each target of a holder does.
fn watches(out: &mut Vec<Constraint>, holder: u32, watch: Watch) -> Result<(), AllocError>
    ensures { OnOk result (out.new.items ≡ spec.all_pushed (Watches holder watch ∷ []) out.old.items) }
{
    push(out, Constraint::Watches(holder, watch))
}

fn asks(
    out: &mut Vec<Constraint>,
    layout: Layout,
    lists: &[u32],
    n: u32,
    k: u32,
    class: Class,
    what: What,
) -> Result<(), AllocError>
    requires small { IsSmall layout }
    requires lists { length lists.now < 2 ^ 30 }
    requires copies { k < 2 ^ 30 }
    ensures { OnOk result (out.new.items ≡ spec.all_pushed (spec.asks layout lists.now n k class what) out.old.items) }
{
    match what {
        What::Name(q) => push(out, Constraint::Has(layout.place(n), q)),
        What::Designator(g) => push(out, Constraint::Has(layout.value(n), g)),
        What::Paren(e) => {
            joins(out, layout.value(e), layout.value(n))?;
            joins(out, layout.place(e), layout.place(n))
        }
        What::Address(e) => {
            joins(out, layout.place(e), layout.value(n))?;
            watches(out, layout.value(e), Watch::Functions(layout.value(n)))
        }
        What::Deref(e) => {
            watches(out, layout.value(e), Watch::Parts(layout.place(n)))?;
            watches(out, layout.value(e), Watch::Functions(layout.value(n)))
        }
        What::Index(a) => watches(out, layout.value(a), Watch::Parts(layout.place(n))),
        What::Member(e, m) => watches(out, layout.place(e), Watch::Member(m, layout.place(n))),
        What::Arrow(e, m) => watches(out, layout.value(e), Watch::Member(m, layout.place(n))),
        What::Assign(l, r) => {
            joins(out, layout.value(r), layout.value(n))?;
            stores(out, layout, lists, k, class, l, r)
        }
        What::Offset(e) => joins(out, layout.value(e), layout.value(n)),
        What::Cond(a, b) => {
            joins(out, layout.value(a), layout.value(n))?;
            joins(out, layout.value(b), layout.value(n))
        }
        What::Comma(b) => joins(out, layout.value(b), layout.value(n)),
        What::Call(f, args) => {
            watches(out, layout.value(f), Watch::Returns(layout.value(n)))?;
            passes(out, layout, f, part_list(lists, args))
        }
        What::Return(i, e) => joins(out, layout.value(e), layout.result(i)),
        What::Init(s, e) => joins(out, layout.value(e), layout.slot(s)),
        What::Other => Ok(()),
    }
}

/// What the occurrences of a view ask.
pub fn constraints(alloc: Global, view: &View) -> Result<Vec<Constraint>, AllocError>
    requires nodes { length view.now.nodes < 2 ^ 30 }
    requires lists { length view.now.lists < 2 ^ 30 }
    requires small { IsSmall (layout_of view.now) }
    ensures { IfOk result (λ out. out.items ≡ spec.all_asked (layout_of view.now) view.now.lists view.now.nodes 0 0 []) }
{
    let layout = lay_out(view);
    let lists = view.lists.as_slice();
    let mut out = Vec::new(alloc);
    let mut k = 0;
    for (n, place) in view.nodes.as_slice().iter().enumerate() {
        asks(
            &mut out,
            layout,
            lists,
            n as u32,
            k,
            place.class,
            place.what,
        )?;
        reads(&mut out, layout, n as u32, place.class, place.used)?;
        k += copies_in(lists, place.what, place.class);
    }
    Ok(out)
}
