// The objects of a program.
ghost use Rattle.std.specs.Prelude.{◌≡◌, ◌+◌, ◌<◌, ◌^◌, length, OnOk, IfOk};
ghost use Rattle.cc_parts.specs.Objects as spec;

use crate::parts::Parts;
use cc_arena::{Node, Placed};
use cc_base::Memory;
use cc_program::{Program, Variable};
use cc_types::{Structs, TypeTable};
use std::alloc::Global;

fn put_variables(
    parts: &mut Parts,
    table: &TypeTable,
    structs: &Structs,
    variables: &[Variable],
) -> Result<(), Memory>
    ensures { OnOk result (parts.new ≡ spec.with_variables table.now structs.now variables.now parts.old) }
{
    for variable in variables {
        parts.put_object(table, structs, variable.declarator, variable.ty)?;
    }
    Ok(())
}

fn put_node(parts: &mut Parts, n: u32, node: Node) -> Result<(), Memory>
    ensures { OnOk result (parts.new ≡ spec.with_node n node parts.old) }
{
    match node {
        Node::Str(_) => parts.put_literal(n),
        _ => Ok(()),
    }
}

fn put_literals(parts: &mut Parts, nodes: &[Placed]) -> Result<(), Memory>
    requires { length nodes.now < 2 ^ 32 }
    ensures { OnOk result (parts.new ≡ spec.with_literals nodes.now 0 parts.old) }
{
    let mut n: u32 = 0;
    for placed in nodes {
        put_node(parts, n, placed.node)?;
        n += 1;
    }
    Ok(())
}

/// The parts of all objects of a program: of its variables, in the order of their numbers, and then of its string literals,
/// in the order of their nodes. Fails where memory or numbers are wanting.
pub fn parts_of_program(alloc: Global, program: &Program) -> Result<Parts, Memory>
    ensures { IfOk result (λ parts. parts ≡ spec.parts_of_program program.now) }
{
    let mut parts = Parts::new(alloc);
    let symbols = &program.known.symbols;
    put_variables(
        &mut parts,
        &symbols.types,
        &symbols.structs,
        program.variables.as_slice(),
    )?;
    let nodes = program.arena.nodes.as_slice();
    if nodes.len() >= u32::MAX as usize {
        return Err(Memory);
    }
    put_literals(&mut parts, nodes)?;
    Ok(parts)
}
