// What is known of slots and of nodes.
ghost use Rattle.std.specs.Prelude.{◌≡◌, ◌<◌, ◌^◌, map, length, slice_get, IfOk};
ghost use Rattle.cc_uses.specs.Tabling as spec;

use crate::peel::{Peeled, peel_all};
use cc_arena_rules::{surroundings, taken};
use cc_base::{List, Memory};
use cc_facts::Facts;
use cc_listed::{Kind, Occurrence, Slot, Tables};
use cc_parts::{Object, Part, Parts};
use cc_program::{Program, VarId, Variable};
use cc_symbols::{Life, Slots};
use std::alloc::Global;

fn is_static(life: Life) -> bool
    ensures { result ≡ spec.is_static life }
{
    match life {
        Life::Static => true,
        _ => false,
    }
}

// The kind of a slot of a static object.
fn static_kind(in_array: bool) -> Kind
    ensures { result ≡ spec.static_kind in_array }
{
    if in_array { Kind::Open } else { Kind::Named }
}

// The kind of a slot of a local or formal.
fn local_kind(is_taken: bool) -> Kind
    ensures { result ≡ spec.local_kind is_taken }
{
    if is_taken { Kind::Open } else { Kind::Inside }
}

// Whether the address of the variable is taken that the declaration declares, if any.
fn is_flagged(taken: &[bool], declaration: Option<u32>) -> bool
    ensures { result ≡ spec.is_flagged taken.now declaration }
{
    match declaration {
        Some(d) => match taken.get(d as usize).copied() {
            Some(flag) => flag,
            None => false,
        },
        None => false,
    }
}

// The declaration that a node names.
fn declaration_at(program: &Program, n: u32) -> Option<u32>
    ensures { result ≡ spec.declaration_at program.now n }
{
    program.known.symbols.names.get(n).unwrap_or(None)
}

fn variable_kind(program: &Program, taken: &[bool], variable: &Variable, in_array: bool) -> Kind
    ensures { result ≡ spec.variable_kind program.now taken.now variable.now in_array }
{
    if is_static(variable.life) {
        static_kind(in_array)
    } else {
        local_kind(is_flagged(taken, declaration_at(program, variable.declarator)))
    }
}

// The kind of a part as a slot. The objects are the variables, by their numbers, and then the string literals.
fn kind_of(program: &Program, taken: &[bool], part: Part) -> Kind
    ensures { result ≡ spec.kind_of program.now taken.now part }
{
    match program.variable(VarId(part.object)) {
        Some(variable) => variable_kind(program, taken, variable, part.in_array),
        None => static_kind(part.in_array),
    }
}

fn node_in(object: Option<Object>) -> u32
    ensures { result ≡ spec.node_in object }
{
    match object {
        Some(object) => object.node,
        None => 0,
    }
}

fn slot_of(program: &Program, taken: &[bool], parts: &Parts, part: Part) -> Slot
    ensures { result ≡ spec.slot_of program.now taken.now parts.now part }
{
    Slot {
        object: node_in(parts.object_at(part.object)),
        kind: kind_of(program, taken, part),
    }
}

fn slots_of(
    alloc: Global,
    program: &Program,
    taken: &[bool],
    parts: &Parts,
) -> Result<List<Slot>, Memory>
    ensures { IfOk result (λ all. all ≡ spec.slots_of program.now taken.now parts.now) }
{
    let mut all = List::new(alloc);
    for part in parts.parts.as_slice() {
        all.push(slot_of(program, taken, parts, *part))?;
    }
    Ok(all)
}

fn occurrence_of(program: &Program, n: u32, peeled: Peeled) -> Occurrence
    ensures { result ≡ spec.occurrence_of program.now n peeled }
{
    Occurrence {
        component: program.component_of(n).0,
        by_name: peeled.by_name,
    }
}

fn occurrences_of(
    alloc: Global,
    program: &Program,
    peeled: &[Peeled],
) -> Result<List<Occurrence>, Memory>
    requires { length peeled.now < 2 ^ 32 }
    ensures { IfOk result (λ all. all ≡ spec.occurrences_from program.now peeled.now 0) }
{
    let mut all = List::new(alloc);
    let mut n: u32 = 0;
    for it in peeled {
        all.push(occurrence_of(program, n, *it))?;
        n += 1;
    }
    Ok(all)
}

// For each declaration whether the address of its variable is taken.
fn all_taken(alloc: Global, program: &Program) -> Result<Slots<bool>, Memory>
    ensures { IfOk result (λ flags. flags ≡ spec.all_taken program.now) }
{
    let arena = &program.arena;
    let symbols = &program.known.symbols;
    let count = arena.count()?;
    let around = surroundings(alloc, arena, symbols, &program.known.found, 0, count)?;
    let flags = taken(alloc, arena, symbols, around.as_slice(), 0, count)?;
    Ok(flags)
}

// What is known of all nodes.
fn all_occurrences(alloc: Global, program: &Program) -> Result<List<Occurrence>, Memory>
    ensures { IfOk result (λ all. all ≡ spec.all_occurrences program.now) }
{
    let _count = program.arena.count()?;
    let peeled = peel_all(alloc, program.arena.nodes.as_slice())?;
    let _places = peeled.count()?;
    let all = occurrences_of(alloc, program, peeled.as_slice())?;
    Ok(all)
}

/// What is known of the slots of a program, whose parts are those of its facts, and of its nodes. Fails where memory is
/// wanting.
pub fn tables_of(alloc: Global, program: &Program, facts: &Facts) -> Result<Tables, Memory>
    ensures { IfOk result (λ tables. tables ≡ spec.tables_of program.now facts.now.parts) }
{
    let taken = all_taken(alloc, program)?;
    let slots = slots_of(alloc, program, taken.as_slice(), facts.parts())?;
    let occurrences = all_occurrences(alloc, program)?;
    Ok(Tables { slots, occurrences })
}
