// The definitions that are no lvalues.
ghost use Rattle.std.specs.Prelude.{◌≡◌, ◌↔◌, ◌<◌, ◌^◌, length, Contains, slice_get, OnOk, IfOk};
ghost use Rattle.cc_uses.specs.Putting.{put_from};
ghost use Rattle.cc_uses.specs.Uses.{IsGiven, IsInGraph};
ghost use Rattle.cc_uses.specs.Giving as spec;

use crate::put::{Reach, put_part};
use cc_arena::Node;
use cc_base::Memory;
use cc_facts::Facts;
use cc_graph::{Graph, Point};
use cc_listed::Access;
use cc_parts::{Object, Parts};
use cc_program::{FuncId, Program, VarId};
use cc_symbols::Life;
use std::alloc::Global;

// The first of all points.
const ROOT: Point = 0;

// Whether it is a declarator with an initialiser.
fn is_initialised(node: Option<Node>) -> bool
    ensures { result ≡ spec.is_initialised node }
{
    match node {
        Some(Node::Declared(Some(_))) => true,
        _ => false,
    }
}

// Where a variable of this life, whose declarator is `n`, is defined by its declarator.
fn variable_start(program: &Program, graph: &Graph, life: Life, n: u32) -> Option<Point>
    ensures { result ≡ spec.variable_start program.now graph.now life n }
{
    match life {
        Life::Static => Some(ROOT),
        Life::Local => {
            if is_initialised(program.node(n)) {
                graph.after(n)
            } else {
                None
            }
        }
        _ => None,
    }
}

// Where the object of the number `k`, whose declarator or literal is `n`, is defined by it. The objects are the variables, by
// their numbers, and then the string literals.
fn start_of(program: &Program, graph: &Graph, k: u32, n: u32) -> Option<Point>
    ensures { result ≡ spec.start_of program.now graph.now k n }
{
    match program.variable(VarId(k)) {
        Some(variable) => variable_start(program, graph, variable.life, n),
        None => Some(ROOT),
    }
}

// Puts the slots of an object, at a point, if both are there.
fn put_object(
    out: &mut Vec<Access>,
    parts: &Parts,
    object: Option<Object>,
    point: Option<Point>,
) -> Result<(), Memory>
    requires { length parts.now.parts < 2 ^ 32 }
    ensures { OnOk result (out.new.items ≡ spec.with_object parts.now object point out.old.items) }
{
    match (object, point) {
        (Some(object), Some(point)) => put_part(
            out,
            parts.parts.as_slice(),
            Reach::Inner,
            point,
            object.node,
            object.first,
        ),
        _ => Ok(()),
    }
}

// Puts the slots of all objects that their declarators or literals define.
fn put_objects(
    out: &mut Vec<Access>,
    program: &Program,
    graph: &Graph,
    parts: &Parts,
    objects: &[Object],
) -> Result<(), Memory>
    requires parts { length parts.now.parts < 2 ^ 32 }
    requires objects { length objects.now < 2 ^ 32 }
    ensures { OnOk result (out.new.items
        ≡ put_from (spec.put_object program.now graph.now parts.now) objects.now 0 out.old.items) }
{
    let mut k: u32 = 0;
    for object in objects {
        let point = start_of(program, graph, k, object.node);
        put_object(out, parts, Some(*object), point)?;
        k += 1;
    }
    Ok(())
}

// Puts the slots of these formals, at the entry of their function.
fn put_formals(
    out: &mut Vec<Access>,
    parts: &Parts,
    point: Option<Point>,
    formals: &[VarId],
) -> Result<(), Memory>
    requires { length parts.now.parts < 2 ^ 32 }
    ensures { OnOk result (out.new.items ≡ put_from (spec.put_formal parts.now point) formals.now 0 out.old.items) }
{
    for v in formals {
        put_object(out, parts, parts.object_at(v.0), point)?;
    }
    Ok(())
}

// Puts the slots of the formals of a function.
fn put_entry(
    out: &mut Vec<Access>,
    program: &Program,
    graph: &Graph,
    parts: &Parts,
    f: FuncId,
) -> Result<(), Memory>
    requires { length parts.now.parts < 2 ^ 32 }
    ensures { OnOk result (out.new.items
        ≡ spec.with_function graph.now parts.now f (slice_get program.now.functions f.0) out.old.items) }
{
    match program.function(f) {
        Some(function) => put_formals(out, parts, graph.entry(f), function.formals.as_slice()),
        None => Ok(()),
    }
}

// Puts the slots of the formals of these functions.
fn put_entries(
    out: &mut Vec<Access>,
    program: &Program,
    graph: &Graph,
    parts: &Parts,
    entries: &[FuncId],
) -> Result<(), Memory>
    requires { length parts.now.parts < 2 ^ 32 }
    ensures { OnOk result (out.new.items
        ≡ put_from (spec.put_entry program.now graph.now parts.now) entries.now 0 out.old.items) }
{
    for f in entries {
        put_entry(out, program, graph, parts, *f)?;
    }
    Ok(())
}

// All of them, in order.
fn all_given(
    alloc: Global,
    program: &Program,
    graph: &Graph,
    facts: &Facts,
) -> Result<Vec<Access>, Memory>
    ensures { IfOk result (λ out. out.items ≡ spec.given_of program.now graph.now facts.now.parts) }
{
    let parts = facts.parts();
    let _parts = parts.parts.count()?;
    let _objects = parts.objects.count()?;
    let mut out = Vec::new(alloc);
    put_objects(&mut out, program, graph, parts, parts.objects.as_slice())?;
    put_entries(&mut out, program, graph, parts, program.entries())?;
    Ok(out)
}

/// The definitions of slots that are neither lvalues nor arguments: of initialised automatic objects, static objects, string
/// literals, and formals of entries. Fails where memory or numbers are wanting.
pub fn given_of(
    alloc: Global,
    program: &Program,
    graph: &Graph,
    facts: &Facts,
) -> Result<Vec<Access>, Memory>
    ensures list { IfOk result (λ out. out.items ≡ spec.given_of program.now graph.now facts.now.parts) }
    ensures each { IfOk result (λ out. (a : Access)
        → Contains out.items a ↔ IsGiven program.now graph.now facts.now.parts a) }
    ensures points { IfOk result (λ out. IsInGraph graph.now out.items) }
{
    let out = all_given(alloc, program, graph, facts)?;
    Ok(out)
}
