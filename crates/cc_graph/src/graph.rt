// The whole graph.
ghost use Rattle.std.specs.Prelude.{◌≡◌, ◌<◌, ◌^◌, [], length, replicate, slice_get, IfOk, IfErr, OnOk};
ghost use Rattle.cc_graph.specs.Graphs as spec;
ghost use Rattle.cc_graph.specs.Linking.{lowered, row_of, IsSuccession};
ghost use Rattle.cc_graph.specs.Points.{number, all_rows};
ghost use Rattle.cc_graph.specs.Scopes.{scopes_of};
ghost use Rattle.cc_graph.specs.declared.position.Position.TheVariants.{Before, At, After};

use crate::naming::{Rows, name_points, number_points};
use crate::node::{link_node, tell_jump};
use crate::order::all_in_order;
use crate::position::{MAX_POINTS, Point, Position, Row, number};
use crate::scope::{Scope, scope_at, scopes};
use crate::standing::standings;
use cc_arena::Arena;
use cc_base::{List, Memory};
use cc_program::{FuncId, Function, Program};
use cc_symbols::Slots;
use std::alloc::Global;

// How many nodes an arena has at most.
const MOST_NODES: u64 = (1 << 30) - 1;

/// Why a program has no graph.
#[derive(Clone, Copy, Debug, PartialEq, Eq)]
pub enum GraphFault {
    /// The program has more than [`MAX_POINTS`] control points, and this many.
    TooManyPoints { count: u64 },
    /// Memory was wanting. No clause says when.
    Memory,
}

impl From<Memory> for GraphFault {
    ghost use Rattle.std.specs.Prelude.{◌≡◌};
    ghost use Rattle.cc_graph.specs.declared.graph.GraphFault.TheVariants.{Memory};

    ghost from_gives = { λ _ fault. fault ≡ Memory };

    fn from(_: Memory) -> GraphFault {
        GraphFault::Memory
    }
}

/// The control points of a program, and which may follow which within a function. All look-ups are total and take no memory.
#[derive(Drop)]
pub struct Graph {
    /// By the number of a node, its points.
    pub rows: Slots<Row>,
    /// How many points there are.
    pub points: u32,
    /// The points, in the order of their numbers.
    pub positions: List<Position>,
    /// By the number of a function, the node that defines it.
    pub definitions: Slots<Option<u32>>,
    /// For each point the numbers of those that may follow it within its function, in ascending order.
    pub next: List<List<Point>>,
}

impl Graph {
    /// How many points there are, which are the numbers below it.
    pub fn len(&self) -> u32
        ensures { result ≡ self.now.points }
    {
        self.points
    }

    /// The point before a node, where the node is evaluated.
    pub fn before(&self, n: u32) -> Option<Point>
        ensures { result ≡ number self.now.rows (Before n) }
    {
        number(self.rows.as_slice(), Position::Before(n))
    }

    /// The point at a call, where the call is evaluated.
    pub fn at(&self, n: u32) -> Option<Point>
        ensures { result ≡ number self.now.rows (At n) }
    {
        number(self.rows.as_slice(), Position::At(n))
    }

    /// The point after a node, where the node is evaluated.
    pub fn after(&self, n: u32) -> Option<Point>
        ensures { result ≡ number self.now.rows (After n) }
    {
        number(self.rows.as_slice(), Position::After(n))
    }

    /// The entry of a function, where it has a body.
    pub fn entry(&self, f: FuncId) -> Option<Point>
        ensures { result ≡ spec.entry_of self.now f }
    {
        match self.definitions.get(f.0) {
            Some(Some(d)) => number(self.rows.as_slice(), Position::Entry(d)),
            _ => None,
        }
    }

    /// The exit of a function, where it has a body.
    pub fn exit(&self, f: FuncId) -> Option<Point>
        ensures { result ≡ spec.exit_of self.now f }
    {
        match self.definitions.get(f.0) {
            Some(Some(d)) => number(self.rows.as_slice(), Position::Exit(d)),
            _ => None,
        }
    }

    /// Which moment a point is; none past the last point.
    pub fn position(&self, p: Point) -> Option<Position>
        ensures { result ≡ slice_get self.now.positions p }
    {
        self.positions.as_slice().get(p as usize).copied()
    }

    /// The points that may follow a point within its function, each once, in ascending order; none past the last point.
    pub fn next_within(&self, p: Point) -> &[Point]
        ensures { result.now ≡ row_of self.now.next p }
    {
        match self.next.as_slice().get(p as usize) {
            Some(list) => list.as_slice(),
            None => &[],
        }
    }
}

// The points of a program, by node and by number.
#[derive(Drop)]
struct Points {
    rows: Slots<Row>,
    points: u32,
    positions: List<Position>,
}

// The points of all nodes, and how many there are.
fn numbering(alloc: Global, program: &Program) -> Result<Rows, Memory>
    requires { length program.now.arena.nodes < 2 ^ 30 }
    ensures all { IfOk result (λ r. r ≡ all_rows program.now) }
    ensures few { IfOk result (λ r. length r.rows < 2 ^ 30) }
{
    let standings = standings(alloc, program)?;
    let nodes = program.arena().nodes.as_slice();
    number_points(alloc, nodes, standings.as_slice())
}

// The points of a program, if there are no more of them than the limit.
fn all_points(alloc: Global, program: &Program) -> Result<Points, GraphFault>
    requires { length program.now.arena.nodes < 2 ^ 30 }
    ensures points { IfOk result (λ p. spec.ArePoints program.now p) }
    ensures refused { IfErr result (λ fault. spec.Refuses program.now fault) }
{
    let Rows { rows, points } = numbering(alloc, program)?;
    if points > MAX_POINTS {
        return Err(GraphFault::TooManyPoints {
            count: points as u64,
        });
    }
    let positions = name_points(alloc, rows.as_slice())?;
    Ok(Points {
        rows,
        points,
        positions,
    })
}

fn definition_of(arena: &Arena, function: &Function) -> Option<u32>
    ensures { result ≡ spec.definition_of arena.now function.now }
{
    match function.body {
        Some(block) => arena.parent_at(block),
        None => None,
    }
}

// By the number of a function, the node that defines it.
fn definitions(alloc: Global, program: &Program) -> Result<Slots<Option<u32>>, Memory>
    ensures { IfOk result (λ all. all ≡ spec.definitions_of program.now) }
{
    let mut all = Slots::new(alloc);
    for function in program.functions.as_slice() {
        all.push(definition_of(program.arena(), function))?;
    }
    Ok(all)
}

// So many empty lists.
fn empty(alloc: Global, points: u32) -> Result<Vec<List<Point>>, Memory>
    ensures { IfOk result (λ next. next.items ≡ replicate points []) }
{
    let mut next = Vec::new(alloc);
    for _point in 0..points {
        next.push(List::new(alloc))?;
    }
    Ok(next)
}

// Adds what each node says.
fn link_all_nodes(
    alloc: Global,
    next: &mut Vec<List<Point>>,
    arena: &Arena,
    rows: &[Row],
    scopes: &[Scope],
) -> Result<(), Memory>
    requires { length arena.now.nodes < 2 ^ 30 }
    ensures { OnOk result (next.new.items
        ≡ lowered arena.now rows.now scopes.now arena.now.nodes 0 next.old.items) }
{
    let nodes = arena.nodes.as_slice();
    for (n, placed) in nodes.iter().enumerate() {
        let scope = scope_at(scopes, placed.parent);
        link_node(alloc, next, arena, rows, n as u32, placed.node)?;
        tell_jump(next, rows, scope, n as u32, placed.node)?;
    }
    Ok(())
}

// The points that follow each point.
#[tactic(auto, using(crate::proofs::Gains::lower_is))]
fn succession(
    alloc: Global,
    arena: &Arena,
    rows: &[Row],
    points: u32,
) -> Result<List<List<Point>>, Memory>
    requires { length arena.now.nodes < 2 ^ 30 }
    ensures { IfOk result (λ all.
        IsSuccession arena.now rows.now (scopes_of arena.now) points all) }
{
    let scopes = scopes(alloc, arena)?;
    let mut next = empty(alloc, points)?;
    link_all_nodes(alloc, &mut next, arena, rows, scopes.as_slice())?;
    let all = all_in_order(alloc, next.as_slice())?;
    Ok(all)
}

/// The graph of a program.
///
/// `TooManyPoints` comes exactly where the program has more than [`MAX_POINTS`] control points, want of memory aside, which
/// may come for any program.
#[tactic(auto, using(crate::proofs::Lowering::is_graph))]
pub fn lower(alloc: Global, program: &Program) -> Result<Graph, GraphFault>
    ensures graph { IfOk result (λ g. spec.IsGraph program.now g) }
    ensures refused { IfErr result (λ fault. spec.Refuses program.now fault) }
{
    let arena = program.arena();
    if arena.nodes.len() > MOST_NODES {
        return Err(GraphFault::Memory);
    }
    let Points {
        rows,
        points,
        positions,
    } = all_points(alloc, program)?;
    let definitions = definitions(alloc, program)?;
    let next = succession(alloc, arena, rows.as_slice(), points)?;
    Ok(Graph {
        rows,
        points,
        positions,
        definitions,
        next,
    })
}
