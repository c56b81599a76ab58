// The numbering of the points.
ghost use Rattle.std.specs.Prelude.{◌≡◌, ◌+◌, ◌≤◌, ◌<◌, ◌^◌, [], ◌++◌, length, slice_get, IfOk, OnOk};
ghost use Rattle.cc_graph.specs.Points as spec;

use crate::position::{Position, Row};
use crate::standing::Standing;
use cc_arena::{Node, Placed};
use cc_base::{List, Memory};
use cc_symbols::Slots;
use std::alloc::Global;

// The rows of the nodes, and the number of points.
#[derive(Drop)]
pub(crate) struct Rows {
    pub rows: Slots<Row>,
    pub points: u32,
}

fn is_call(node: Node) -> bool
    ensures { result ≡ spec.is_call node }
{
    matches!(node, Node::Call(_, _))
}

fn jumps(node: Node) -> bool
    ensures { result ≡ spec.jumps node }
{
    matches!(node, Node::Break | Node::Continue | Node::Return(_))
}

fn standing_at(standings: &[Standing], n: usize) -> Standing
    ensures { result ≡ spec.standing_or (slice_get standings.now n) }
{
    match standings.get(n) {
        Some(standing) => *standing,
        None => Standing::Unevaluated,
    }
}

// Whether a node has a point at it: an evaluated call.
fn has_at(standing: Standing, node: Node) -> bool
    ensures { result ≡ spec.has_at standing node }
{
    match standing {
        Standing::Evaluated => is_call(node),
        _ => false,
    }
}

// The row of a node, if its first point is `first`.
fn row(node: Node, standing: Standing, first: u32) -> Row
    requires { first + 2 < 2 ^ 32 }
    ensures row { result ≡ spec.row node standing first }
    ensures near { result.last ≤ first + 2 }
{
    let jumps = jumps(node);
    if has_at(standing, node) {
        Row {
            standing,
            jumps,
            first,
            at: Some(first + 1),
            last: first + 2,
        }
    } else {
        Row {
            standing,
            jumps,
            first,
            at: None,
            last: first + 1,
        }
    }
}

// The number after the points of a node, of which `first` would be the first.
fn next_point(standing: Standing, row: Row, first: u32) -> u32
    requires near { row.last ≤ first + 2 }
    requires small { first + 3 < 2 ^ 32 }
    ensures next { result ≡ spec.next_point standing row first }
    ensures near { result ≤ first + 3 }
{
    match standing {
        Standing::Unevaluated | Standing::Declaring => first,
        Standing::Evaluated | Standing::Defining => row.last + 1,
    }
}

/// The rows of all nodes, which stand as `standings` says.
pub(crate) fn number_points(
    alloc: Global,
    nodes: &[Placed],
    standings: &[Standing],
) -> Result<Rows, Memory>
    requires { length nodes.now < 2 ^ 30 }
    ensures numbered { IfOk result (λ r. r ≡ spec.numbered standings.now nodes.now 0 [] 1) }
    ensures long { IfOk result (λ r. length r.rows ≡ length nodes.now) }
{
    let mut rows = Slots::new(alloc);
    let mut next = 1;
    for (n, placed) in nodes.iter().enumerate() {
        let row = row(placed.node, standing_at(standings, n), next);
        rows.push(row)?;
        next = next_point(row.standing, row, next);
    }
    Ok(Rows { rows, points: next })
}

fn push_all(positions: &mut List<Position>, more: &[Position]) -> Result<(), Memory>
    ensures { OnOk result (positions.new ≡ positions.old ++ more.now) }
{
    for position in more {
        positions.push(*position)?;
    }
    Ok(())
}

// Puts the points of the node `n` at the end.
fn push_positions(positions: &mut List<Position>, row: Row, n: u32) -> Result<(), Memory>
    ensures { OnOk result (positions.new
        ≡ positions.old ++ spec.positions_in row.standing row.at n) }
{
    match row.standing {
        Standing::Unevaluated | Standing::Declaring => Ok(()),
        Standing::Evaluated => match row.at {
            Some(_) => push_all(
                positions,
                &[Position::Before(n), Position::At(n), Position::After(n)],
            ),
            None => push_all(positions, &[Position::Before(n), Position::After(n)]),
        },
        Standing::Defining => push_all(positions, &[Position::Entry(n), Position::Exit(n)]),
    }
}

/// All points, in the order of their numbers.
pub(crate) fn name_points(alloc: Global, rows: &[Row]) -> Result<List<Position>, Memory>
    requires { length rows.now < 2 ^ 30 }
    ensures { IfOk result (λ positions. positions ≡ spec.positions_of rows.now) }
{
    let mut positions = List::new(alloc);
    positions.push(Position::Root)?;
    for (n, row) in rows.iter().enumerate() {
        push_positions(&mut positions, *row, n as u32)?;
    }
    Ok(positions)
}
