// Control points by name and by number.
ghost use Rattle.std.specs.Prelude.{◌≡◌, slice_get};
ghost use Rattle.cc_graph.specs.Points as spec;

use crate::standing::Standing;

/// The number of a control point. The root is 0; the functions follow in the order of their bodies, each with its entry, its
/// exit, and then its evaluated nodes in the order of their numbers, each with the point before it, at it (a call), after it.
pub type Point = u32;

/// How many control points a program has at most.
pub const MAX_POINTS: u32 = 262_144;

/// Which moment a control point is; nodes are named by their numbers.
#[derive(Clone, Copy)]
pub enum Position {
    /// Where the program's entries are called from.
    Root,
    /// The entry of the function that this node defines.
    Entry(u32),
    /// The exit of the function that this node defines.
    Exit(u32),
    Before(u32),
    /// At a call: behind its arguments, in front of what it calls.
    At(u32),
    After(u32),
}

/// The points of a node. Where it is evaluated they are the first, before it, perhaps one at it, and the last, after it; where
/// it defines a function, its entry and its exit; else there are none.
#[derive(Clone, Copy)]
pub struct Row {
    pub standing: Standing,
    /// Whether a word says where its after leads: `break`, `continue`, `return`.
    pub jumps: bool,
    pub first: u32,
    pub at: Option<u32>,
    pub last: u32,
}

fn row_at(rows: &[Row], n: u32) -> Option<Row>
    ensures { result ≡ slice_get rows.now n }
{
    rows.get(n as usize).copied()
}

fn entry(row: Option<Row>) -> Option<u32>
    ensures { result ≡ spec.entry row }
{
    match row {
        Some(row) => match row.standing {
            Standing::Defining => Some(row.first),
            _ => None,
        },
        None => None,
    }
}

fn exit(row: Option<Row>) -> Option<u32>
    ensures { result ≡ spec.exit row }
{
    match row {
        Some(row) => match row.standing {
            Standing::Defining => Some(row.last),
            _ => None,
        },
        None => None,
    }
}

fn before(row: Option<Row>) -> Option<u32>
    ensures { result ≡ spec.before row }
{
    match row {
        Some(row) => match row.standing {
            Standing::Evaluated => Some(row.first),
            _ => None,
        },
        None => None,
    }
}

fn at(row: Option<Row>) -> Option<u32>
    ensures { result ≡ spec.at row }
{
    match row {
        Some(row) => match row.standing {
            Standing::Evaluated => row.at,
            _ => None,
        },
        None => None,
    }
}

fn after(row: Option<Row>) -> Option<u32>
    ensures { result ≡ spec.after row }
{
    match row {
        Some(row) => match row.standing {
            Standing::Evaluated => Some(row.last),
            _ => None,
        },
        None => None,
    }
}

fn plain_after(row: Option<Row>) -> Option<u32>
    ensures { result ≡ spec.plain_after row }
{
    match row {
        Some(r) => { if r.jumps { None } else { after(row) } }
        None => None,
    }
}

/// The number of a point, if it is there.
pub(crate) fn number(rows: &[Row], position: Position) -> Option<Point>
    ensures { result ≡ spec.number rows.now position }
{
    match position {
        Position::Root => Some(0),
        Position::Entry(n) => entry(row_at(rows, n)),
        Position::Exit(n) => exit(row_at(rows, n)),
        Position::Before(n) => before(row_at(rows, n)),
        Position::At(n) => at(row_at(rows, n)),
        Position::After(n) => after(row_at(rows, n)),
    }
}

/// The same, but not of the point after a node where a word says where it leads.
pub(crate) fn source(rows: &[Row], position: Position) -> Option<Point>
    ensures { result ≡ spec.source rows.now position }
{
    match position {
        Position::After(n) => plain_after(row_at(rows, n)),
        _ => number(rows, position),
    }
}

/// Whether a node is evaluated.
pub(crate) fn is_evaluated(rows: &[Row], n: u32) -> bool
    ensures { result ≡ spec.is_evaluated rows.now n }
{
    before(row_at(rows, n)).is_some()
}
