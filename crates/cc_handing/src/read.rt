// Slots of variables, and the reads of variables that arguments and returns name.
ghost use Rattle.std.specs.Prelude.{◌≡◌};
ghost use Rattle.cc_handing.specs.Reads as spec;

use cc_graph::Graph;
use cc_listed::Access;
use cc_parts::Parts;
use cc_program::{Program, Referent, VarId};

/// What an expression hands over.
#[derive(Clone, Copy)]
pub(crate) enum Source {
    /// Its own value: it isn't the name of a scalar variable.
    Itself,
    /// What is read of the variable that it names.
    Read(Access),
    /// The point or the slot of that read is missing.
    Missing,
}

/// The slot of a scalar variable: the first part of its object.
pub(crate) fn slot_of(parts: &Parts, v: VarId) -> Option<u32>
    ensures { result ≡ spec.slot_of parts.now v }
{
    match parts.object_at(v.0) {
        Some(object) => Some(object.first),
        None => None,
    }
}

// The slot of the variable that a name names.
fn slot_named(program: &Program, parts: &Parts, n: u32) -> Option<u32>
    ensures { result ≡ spec.slot_named program.now parts.now n }
{
    match program.names(n) {
        Some(Referent::Variable(v)) => slot_of(parts, v),
        _ => None,
    }
}

fn read(n: u32, point: Option<u32>, slot: Option<u32>) -> Source
    ensures { result ≡ spec.read_by n point slot }
{
    match (point, slot) {
        (Some(point), Some(slot)) => Source::Read(Access {
            point,
            slot,
            occurrence: n,
        }),
        _ => Source::Missing,
    }
}

/// What is handed over by an expression that is this name of a variable, or none.
pub(crate) fn source_of(
    program: &Program,
    graph: &Graph,
    parts: &Parts,
    name: Option<u32>,
) -> Source
    ensures { result ≡ spec.source_of program.now graph.now parts.now name }
{
    match name {
        Some(n) => read(n, graph.after(n), slot_named(program, parts, n)),
        None => Source::Itself,
    }
}
