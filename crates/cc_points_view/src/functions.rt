// The functions of a program as the rules see them.
ghost use Rattle.std.specs.Prelude.{◌≡◌, ◌<◌, ◌^◌, [], None, length, slice_get, OnOk, IfOk};
ghost use Rattle.cc_symbols.specs.Places.{grown};
ghost use Rattle.cc_points_view.specs.Functions as spec;

use cc_arena::Span;
use cc_base::Memory;
use cc_parts::Parts;
use cc_points_base::Callee;
use cc_program::{Function, FunctionKind, VarId};
use cc_symbols::Slots;
use std::alloc::Global;

/// The lists, the functions, and for each struct type its pointers, by numbers.
#[derive(Drop)]
pub struct Tables {
    pub lists: Slots<u32>,
    pub functions: Slots<Callee>,
    pub paths: Slots<Option<Span>>,
}

fn put_body(bodies: &mut Slots<Option<u32>>, body: Option<u32>, i: u32)
    ensures { bodies.new ≡ spec.with_body body i bodies.old }
{
    match body {
        Some(n) => bodies.put(n, Some(i)),
        None => {}
    }
}

fn put_bodies(bodies: &mut Slots<Option<u32>>, functions: &[Function])
    requires { length functions.now < 2 ^ 32 }
    ensures { bodies.new ≡ spec.with_bodies functions.now 0 bodies.old }
{
    let mut i: u32 = 0;
    for function in functions {
        put_body(bodies, function.body, i);
        i += 1;
    }
}

/// For each node the function whose body it is. Fails where memory is wanting.
pub fn bodies_of(
    alloc: Global,
    functions: &[Function],
    nodes: u32,
) -> Result<Slots<Option<u32>>, Memory>
    requires { length functions.now < 2 ^ 32 }
    ensures { IfOk result (λ bodies. bodies ≡ spec.bodies_of functions.now nodes) }
{
    let mut bodies = Slots::new(alloc);
    bodies.grow(nodes, None)?;
    put_bodies(&mut bodies, functions);
    Ok(bodies)
}

// The whole object of a formal; 2^32 - 1, which is no part, where there is none.
fn formal(parts: &Parts, v: VarId) -> u32
    ensures { result ≡ spec.formal parts.now v }
{
    match parts.object_at(v.0) {
        Some(object) => object.first,
        None => u32::MAX,
    }
}

fn put_formals(lists: &mut Slots<u32>, parts: &Parts, formals: &[VarId]) -> Result<(), Memory>
    ensures { OnOk result (lists.new ≡ spec.with_formals parts.now formals.now lists.old) }
{
    for v in formals {
        lists.push(formal(parts, *v))?;
    }
    Ok(())
}

fn put_callee(
    tables: &mut Tables,
    parts: &Parts,
    formals: &[VarId],
    is_defined: bool,
) -> Result<(), Memory>
    ensures { OnOk result (tables.new ≡ spec.with_callee parts.now formals.now is_defined tables.old) }
{
    let start = tables.lists.count()?;
    put_formals(&mut tables.lists, parts, formals)?;
    let end = tables.lists.count()?;
    tables.functions.push(Callee {
        is_defined,
        formals: Span { start, end },
    })
}

fn is_defined(kind: FunctionKind) -> bool
    ensures { result ≡ spec.is_defined kind }
{
    matches!(kind, FunctionKind::Defined)
}

/// Puts the functions at the end, each with its formals. Fails where memory is wanting.
pub fn put_functions(
    tables: &mut Tables,
    parts: &Parts,
    functions: &[Function],
) -> Result<(), Memory>
    ensures { OnOk result (tables.new ≡ spec.with_functions parts.now functions.now tables.old) }
{
    for function in functions {
        put_callee(
            tables,
            parts,
            function.formals.as_slice(),
            is_defined(function.kind),
        )?;
    }
    Ok(())
}
