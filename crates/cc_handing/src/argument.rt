// Arguments of sites.
ghost use Rattle.std.specs.Prelude.{◌≡◌, OnOk};
ghost use Rattle.cc_handing.specs.Handing as spec;

use crate::handed::{Handed, put_named};
use crate::put::counted;
use crate::read::{Source, source_of};
use cc_base::Memory;
use cc_graph::Graph;
use cc_listed::Argument;
use cc_parts::Parts;
use cc_program::Program;
use cc_roles::{arguments, named};

// Puts an argument at the end.
fn put_argument(
    handed: &mut Handed,
    site: u32,
    at: u32,
    number: u32,
    occurrence: u32,
    source: Source,
) -> Result<(), Memory>
    ensures { OnOk result (handed.new
        ≡ spec.with_argument site at number occurrence source handed.old) }
{
    let named = match source {
        Source::Missing => return Ok(()),
        Source::Itself => None,
        Source::Read(access) => Some(put_named(&mut handed.named, access)?),
    };
    handed.arguments.push(Argument {
        site,
        number,
        at,
        occurrence,
        named,
    })
}

// Puts these arguments of a site at the end.
fn put_parts(
    handed: &mut Handed,
    program: &Program,
    graph: &Graph,
    parts: &Parts,
    site: u32,
    at: u32,
    nodes: &[u32],
) -> Result<(), Memory>
    ensures { OnOk result (handed.new
        ≡ spec.with_arguments program.now graph.now parts.now site at nodes.now 0 handed.old) }
{
    for (i, node) in nodes.iter().enumerate() {
        let source = source_of(program, graph, parts, named(program, *node));
        put_argument(handed, site, at, counted(i)?, *node, source)?;
    }
    Ok(())
}

// Puts the arguments of a site at the end, if its point is there.
fn put_site(
    handed: &mut Handed,
    program: &Program,
    graph: &Graph,
    parts: &Parts,
    site: u32,
    at: Option<u32>,
) -> Result<(), Memory>
    ensures { OnOk result (handed.new
        ≡ spec.with_site program.now graph.now parts.now site at handed.old) }
{
    match at {
        Some(at) => put_parts(
            handed,
            program,
            graph,
            parts,
            site,
            at,
            arguments(program, site),
        ),
        None => Ok(()),
    }
}

/// Puts the arguments of these sites at the end.
pub(crate) fn put_arguments(
    handed: &mut Handed,
    program: &Program,
    graph: &Graph,
    parts: &Parts,
    sites: &[u32],
) -> Result<(), Memory>
    ensures { OnOk result (handed.new
        ≡ spec.with_sites program.now graph.now parts.now sites.now handed.old) }
{
    for site in sites {
        put_site(handed, program, graph, parts, *site, graph.at(*site))?;
    }
    Ok(())
}
