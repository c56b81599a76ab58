// What can be reached from a point over edges.
ghost use Rattle.std.specs.Prelude.{◌≡◌, ℕ, ◌<◌, ◌↔◌, [], ◌∷◌, All, IfOk, IsTrue, OnOk, length};
ghost use Rattle.cc_base.specs.Edges.{AreBelow, IsMarked, Leads};
ghost use Rattle.cc_base.specs.Paths.{Reaches};
ghost use Rattle.cc_base.specs.Search.{AreRowsOf, HasEdge, MarksAll, StaysWithin};

use std::alloc::{AllocError, Global};

/// An edge leads from a point to a point. Points are numbers from 0.
#[derive(Clone, Copy, Debug, PartialEq, Eq)]
pub struct Edge {
    /// The point at which it begins.
    pub from: usize,
    /// The point to which it leads.
    pub to: usize,
}

/// Which of the points below `points` can be reached from the start over these edges: the start itself, and each
/// point to which an edge leads from a point that can be reached.
///
/// Takes time and memory that grow with the points and the edges. An error is want of memory.
pub fn reachable(
    alloc: Global,
    points: usize,
    edges: &[Edge],
    start: usize,
) -> Result<Vec<bool>, AllocError>
    requires edges { AreBelow points edges.now }
    requires start { start < points }
    ensures len { IfOk result (λ marks. length marks.items ≡ points) }
    ensures exact { IfOk result (λ marks.
        (point : ℕ) → IsMarked marks.items point ↔ Reaches (Leads edges.now) start point) }
{
    let rows = rows_of(alloc, points, edges)?;
    search(alloc, &rows, start)
}

// For each point the points to which its edges lead.
fn rows_of(alloc: Global, points: usize, edges: &[Edge]) -> Result<Vec<Vec<usize>>, AllocError>
    requires { AreBelow points edges.now }
    ensures len { IfOk result (λ rows. length rows.items ≡ points) }
    ensures exact { IfOk result (λ rows. AreRowsOf edges.now rows.items) }
{
    let mut rows = Vec::new(alloc);
    for _ in 0..points {
        rows.push(Vec::new(alloc))?;
    }
    for edge in edges {
        rows[edge.from].push(edge.to)?;
    }
    Ok(rows)
}

// Which points can be reached from the start, where each point has a row of the points that come next.
fn search(alloc: Global, rows: &[Vec<usize>], start: usize) -> Result<Vec<bool>, AllocError>
    requires rows { StaysWithin rows.now }
    requires start { start < length rows.now }
    ensures len { IfOk result (λ marks. length marks.items ≡ length rows.now) }
    ensures exact { IfOk result (λ marks.
        (point : ℕ) → IsMarked marks.items point ↔ Reaches (HasEdge rows.now) start point) }
{
    let mut marks = vec![in alloc; false; rows.len()]?;
    let mut work = Vec::new(alloc);
    mark(&mut marks, &mut work, start)?;
    while let Some(point) = work.pop() {
        mark_all(&mut marks, &mut work, &rows[point])?;
    }
    Ok(marks)
}

// Marks all of these points.
fn mark_all(marks: &mut Vec<bool>, work: &mut Vec<usize>, row: &[usize]) -> Result<(), AllocError>
    requires { All (λ point. point < length marks.old.items) row.now }
    ensures { OnOk result (MarksAll marks.old.items marks.new.items work.old.items work.new.items row.now) }
{
    for point in row {
        mark(marks, work, *point)?;
    }
    Ok(())
}

// Marks a point, and puts it to the work if it was not marked.
fn mark(marks: &mut Vec<bool>, work: &mut Vec<usize>, point: usize) -> Result<(), AllocError>
    requires { point < length marks.old.items }
    ensures { OnOk result
        (MarksAll marks.old.items marks.new.items work.old.items work.new.items (point ∷ [])) }
{
    if !marks[point] {
        work.push(point)?;
        marks[point] = true;
    }
    Ok(())
}

#[cfg(test)]
mod tests {
    use super::*;
    use std::test::Fail;

    // Whether the edges stand between points below this number.
    fn are_below(points: usize, edges: &[Edge]) -> bool
        ensures { IsTrue result → AreBelow points edges.now }
    {
        edges
            .iter()
            .all(|edge| edge.from < points && edge.to < points)
    }

    // Whether just the points of `expected` can be reached from the start over these edges.
    fn reaches(
        alloc: Global,
        pairs: &[(usize, usize)],
        start: usize,
        expected: &[bool],
    ) -> Result<bool, AllocError> {
        let mut edges = Vec::new(alloc);
        for (from, to) in pairs {
            edges.push(Edge {
                from: *from,
                to: *to,
            })?;
        }
        if !are_below(expected.len(), &edges) || start >= expected.len() {
            return Ok(false);
        }
        let marks = reachable(alloc, expected.len(), &edges, start)?;
        Ok(marks.as_slice() == expected)
    }

    #[test]
    fn few_edges(rt: HostRuntime) -> Result<(), Fail> {
        let alloc = rt.alloc();
        // A point alone, without and with an edge to itself.
        assert!(rt; reaches(alloc, &[], 0, &[true])?);
        assert!(rt; reaches(alloc, &[(0, 0)], 0, &[true])?);
        // The start has no edge, and neither end of the other edge is reached.
        assert!(rt; reaches(alloc, &[(1, 2)], 0, &[true, false, false])?);
        // An edge from an unreached point leads to a reached one.
        assert!(rt; reaches(alloc, &[(2, 1), (0, 1)], 0, &[true, true, false])?);
        Ok(())
    }

    #[test]
    fn ways(rt: HostRuntime) -> Result<(), Fail> {
        let alloc = rt.alloc();
        // A chain from its middle, where a point leads to itself.
        let chain = [(0, 1), (1, 2), (1, 1), (2, 3)];
        assert!(rt; reaches(alloc, &chain, 1, &[false, true, true, true])?);
        // A cycle, with a point that leads into it and one to which it leads.
        let cycle = [(0, 1), (1, 2), (2, 3), (3, 1), (3, 4)];
        assert!(rt; reaches(alloc, &cycle, 2, &[false, true, true, true, true])?);
        // Several edges between the same two points, in both directions.
        let several = [(0, 2), (0, 2), (2, 0), (0, 2)];
        assert!(rt; reaches(alloc, &several, 0, &[true, false, true])?);
        // Two ways to one point, and edges that are listed before the point that leads to them is reached.
        let two_ways = [(4, 5), (3, 4), (1, 3), (2, 3), (0, 2), (0, 1)];
        assert!(rt; reaches(alloc, &two_ways, 0, &[true, true, true, true, true, true])?);
        Ok(())
    }
}
