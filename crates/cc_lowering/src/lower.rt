// The acts of a program.
use crate::look::Look;
use crate::passing::{Passing, passing_of};
use cc_acts::{Act, Acts, Node as ActNode};
use cc_arena::Node;
use cc_base::Memory;
use cc_graph::{Graph, Point, Position};
use cc_layout::{Numbers, Sides, constants_of, numbers_of, sides_of};
use cc_program::{FuncId, Program};
use cc_store::Row;
use std::alloc::Global;

// The act at a point.
fn act_at(look: &Look, p: Point, position: Position) -> Act {
    let next = look.next(p);
    match position {
        Position::Root => Act::Skip { next },
        Position::Entry(d) => look.entry_act(d, next),
        Position::Exit(d) => look.exit_act(d),
        Position::Before(n) => look.act_before(n, next),
        Position::At(n) => look.act_at(n, next),
        Position::After(n) => look.act_after(n, next),
    }
}

// Whether a node is the test of a loop, or stands in the place of one that is missing.
fn is_test(look: &Look, n: u32) -> bool {
    match look.node(look.up(n)) {
        Node::While(test, _) | Node::Do(_, test) | Node::For(_, Some(test), _, _) => test == n,
        Node::For(_, None, _, body) => body == n,
        _ => false,
    }
}

// Whether a turn is taken at a point.
fn takes_turn(look: &Look, position: Position) -> bool {
    match position {
        Position::Entry(_) => true,
        Position::Before(n) => is_test(look, n),
        Position::Root | Position::Exit(_) | Position::At(_) | Position::After(_) => false,
    }
}

fn nodes_of(alloc: Global, look: &Look) -> Result<Row<ActNode>, Memory> {
    let mut nodes = Row::new(alloc);
    for p in 0..look.graph.len() {
        let position = look.graph.position(p).unwrap_or(Position::Root);
        nodes.push(ActNode {
            takes_turn: takes_turn(look, position),
            act: act_at(look, p, position),
        })?;
    }
    Ok(nodes)
}

fn entries_of(alloc: Global, program: &Program, graph: &Graph) -> Result<Row<Option<u32>>, Memory> {
    let mut entries = Row::new(alloc);
    for f in 0..program.functions() {
        entries.push(graph.entry(FuncId(f)))?;
    }
    Ok(entries)
}

/// The acts of a program, by its graph, as `cc_graph::lower` gives it. Its one refusal is want of memory.
pub fn acts_of(alloc: Global, program: &Program, graph: &Graph) -> Result<Acts, Memory> {
    let numbers = numbers_of(alloc, program)?;
    let constants = constants_of(alloc, program, &numbers)?;
    let sides = sides_of(alloc, program, graph, &numbers, &constants)?;
    let passing = passing_of(alloc, program)?;
    acts_with(alloc, program, graph, &numbers, &passing, sides)
}

fn acts_with(
    alloc: Global,
    program: &Program,
    graph: &Graph,
    numbers: &Numbers,
    passing: &Passing,
    sides: Sides,
) -> Result<Acts, Memory> {
    let look = Look {
        program,
        graph,
        numbers,
        sides: &sides,
        passing,
    };
    let nodes = nodes_of(alloc, &look)?;
    let entries = entries_of(alloc, program, graph)?;
    Ok(Acts {
        nodes,
        entries,
        formals: sides.formals,
        cases: sides.cases,
        fillers: sides.fillers,
        lasting: sides.lasting,
    })
}
