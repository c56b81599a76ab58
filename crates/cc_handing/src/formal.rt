// Formals of functions.
ghost use Rattle.std.specs.Prelude.{◌≡◌, ◌++◌, OnOk, IfOk};
ghost use Rattle.cc_handing.specs.Sites as spec;

use crate::put::{counted, put, small};
use crate::read::slot_of;
use cc_base::Memory;
use cc_graph::Graph;
use cc_listed::Formal;
use cc_parts::Parts;
use cc_program::{FuncId, Function, Program, VarId};
use std::alloc::Global;

// A formal of a function, if its slot is there.
fn formal(callee: u32, entry: u32, number: u32, slot: Option<u32>) -> Option<Formal>
    ensures { result ≡ spec.formal_by callee entry number slot }
{
    match slot {
        Some(slot) => Some(Formal {
            callee,
            number,
            slot,
            entry,
        }),
        None => None,
    }
}

// Puts these formals of a function at the end.
fn put_formals(
    out: &mut Vec<Formal>,
    parts: &Parts,
    callee: u32,
    entry: u32,
    formals: &[VarId],
) -> Result<(), Memory>
    ensures { OnOk result (out.new.items
        ≡ out.old.items ++ spec.formals_from parts.now callee entry formals.now 0) }
{
    for (i, v) in formals.iter().enumerate() {
        put(out, formal(callee, entry, counted(i)?, slot_of(parts, *v)))?;
    }
    Ok(())
}

// Puts the formals of a function at the end, if it has an entry.
fn put_function(
    out: &mut Vec<Formal>,
    parts: &Parts,
    function: &Function,
    entry: Option<u32>,
) -> Result<(), Memory>
    ensures { OnOk result (out.new.items
        ≡ out.old.items ++ spec.formals_of parts.now function.now entry) }
{
    match entry {
        Some(entry) => put_formals(
            out,
            parts,
            function.declarator,
            entry,
            function.formals.as_slice(),
        ),
        None => Ok(()),
    }
}

/// The formals of the functions with a body, if their slots are there. Fails where memory or numbers are wanting.
pub fn formals_of(
    alloc: Global,
    program: &Program,
    graph: &Graph,
    parts: &Parts,
) -> Result<Vec<Formal>, Memory>
    ensures { IfOk result (λ out. out.items ≡ spec.formals program.now graph.now parts.now) }
{
    let functions = program.functions.as_slice();
    let mut out = Vec::new(alloc);
    for (i, function) in functions.iter().enumerate() {
        let entry = graph.entry(FuncId(small(i)?));
        put_function(&mut out, parts, function, entry)?;
    }
    Ok(out)
}
