// Steps from point to point.
ghost use Rattle.std.specs.Prelude.{◌≡◌, [], ◌∷◌, OnOk};
ghost use Rattle.cc_graph.specs.Linking as spec;
ghost use Rattle.cc_graph.specs.Succession as succession;

use crate::position::{Point, Position, Row, number, source};
use cc_base::{List, Memory};

// Puts `j` at the end of the list of `k`.
fn put(next: &mut Vec<List<Point>>, k: Point, j: Point) -> Result<(), Memory>
    ensures { OnOk result (next.new.items ≡ spec.with_step k j next.old.items) }
{
    if (k as usize) < next.len() {
        next[k as usize].push(j)?;
    }
    Ok(())
}

fn add(next: &mut Vec<List<Point>>, from: Option<Point>, to: Option<Point>) -> Result<(), Memory>
    ensures { OnOk result (next.new.items ≡ spec.added from to next.old.items) }
{
    match (from, to) {
        (Some(k), Some(j)) => put(next, k, j),
        _ => Ok(()),
    }
}

/// Adds a step, unless it begins after a jump.
pub(crate) fn link(
    next: &mut Vec<List<Point>>,
    rows: &[Row],
    from: Position,
    to: Position,
) -> Result<(), Memory>
    ensures { OnOk result (next.new.items ≡ spec.linked rows.now (from, to) next.old.items) }
{
    add(next, source(rows, from), number(rows, to))
}

/// Adds a step that the word of a jump says.
pub(crate) fn tell(
    next: &mut Vec<List<Point>>,
    rows: &[Row],
    from: Position,
    to: Position,
) -> Result<(), Memory>
    ensures { OnOk result (next.new.items ≡ spec.told rows.now (from, to) next.old.items) }
{
    add(next, number(rows, from), number(rows, to))
}

/// Adds these steps, but for those that begin after a jump.
pub(crate) fn link_all(
    next: &mut Vec<List<Point>>,
    rows: &[Row],
    steps: &[(Position, Position)],
) -> Result<(), Memory>
    ensures { OnOk result (next.new.items ≡ spec.all_linked rows.now steps.now next.old.items) }
{
    for step in steps {
        link(next, rows, step.0, step.1)?;
    }
    Ok(())
}

/// Adds the steps from a point through these parts to another point.
pub(crate) fn through(
    next: &mut Vec<List<Point>>,
    rows: &[Row],
    from: Position,
    parts: &[u32],
    to: Position,
) -> Result<(), Memory>
    ensures { OnOk result (next.new.items
        ≡ spec.all_linked rows.now (succession.through from parts.now to) next.old.items) }
{
    let mut last = from;
    for part in parts {
        link(next, rows, last, Position::Before(*part))?;
        last = Position::After(*part);
    }
    link(next, rows, last, to)
}

/// Adds the steps of a node with these evaluated parts in order.
pub(crate) fn runs(
    next: &mut Vec<List<Point>>,
    rows: &[Row],
    n: u32,
    parts: &[u32],
) -> Result<(), Memory>
    ensures { OnOk result (next.new.items
        ≡ spec.all_linked rows.now (succession.runs n parts.now) next.old.items) }
{
    through(next, rows, Position::Before(n), parts, Position::After(n))
}
