// What is handed over.
ghost use Rattle.std.specs.Prelude.{◌≡◌, [], ◌++◌, ◌∷◌, IfOk, OnOk, length};
ghost use Rattle.cc_handing.specs.Handing as spec;

use crate::argument::put_arguments;
use crate::put::small;
use crate::returning::put_returns;
use cc_base::{List, Memory};
use cc_graph::Graph;
use cc_listed::{Access, Argument, Returned};
use cc_parts::Parts;
use cc_program::Program;
use std::alloc::Global;

/// What arguments and returns hand over.
#[derive(Drop)]
pub struct Handed {
    /// The arguments of sites.
    pub arguments: List<Argument>,
    /// The returns with an expression.
    pub returns: List<Returned>,
    /// The reads of variables that arguments and returns name.
    pub named: List<Access>,
}

/// Puts the read of a variable at the end of the named ones, and tells its number among them.
pub(crate) fn put_named(named: &mut List<Access>, access: Access) -> Result<u32, Memory>
    ensures number { IfOk result (λ n. n ≡ length named.old) }
    ensures named { OnOk result (named.new ≡ named.old ++ access ∷ []) }
{
    let number = small(named.as_slice().len())?;
    named.push(access)?;
    Ok(number)
}

fn nothing(alloc: Global) -> Handed
    ensures { result ≡ spec.nothing }
{
    Handed {
        arguments: List::new(alloc),
        returns: List::new(alloc),
        named: List::new(alloc),
    }
}

/// The arguments of these sites and the returns of the functions with a body, and the reads of the variables that they name.
/// Fails where memory or numbers are wanting.
pub fn handed_of(
    alloc: Global,
    program: &Program,
    graph: &Graph,
    parts: &Parts,
    sites: &[u32],
) -> Result<Handed, Memory>
    ensures { IfOk result (λ out. out
        ≡ spec.handed program.now graph.now parts.now sites.now) }
{
    let mut handed = nothing(alloc);
    put_arguments(&mut handed, program, graph, parts, sites)?;
    put_returns(alloc, &mut handed, program, graph, parts)?;
    Ok(handed)
}
