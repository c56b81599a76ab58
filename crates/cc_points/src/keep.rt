// What the table of facts has besides the facts.
ghost use Rattle.std.specs.Prelude.{◌≡◌, [], IfOk};
ghost use Rattle.cc_points_base.specs.Layouts.{IsSmall, layout_of};
ghost use Rattle.cc_points.specs.Tables as spec;

use cc_base::{List, Memory};
use cc_blocks::Rows;
use cc_facts::Facts;
use cc_points_base::{Callee, Seen, View, What};
use std::alloc::Global;

// What an occurrence calls, if it is a call.
fn called(what: What) -> Option<u32>
    ensures { result ≡ spec.called what }
{
    match what {
        What::Call(f, _) => Some(f),
        _ => None,
    }
}

fn sites_of(alloc: Global, nodes: &[Seen]) -> Result<List<Option<u32>>, Memory>
    ensures { IfOk result (λ sites. sites ≡ spec.sites_from nodes.now []) }
{
    let mut sites = List::new(alloc);
    for seen in nodes {
        sites.push(called(seen.what))?;
    }
    Ok(sites)
}

fn defined_in(alloc: Global, functions: &[Callee]) -> Result<List<bool>, Memory>
    ensures { IfOk result (λ defined. defined ≡ spec.defined_from functions.now []) }
{
    let mut defined = List::new(alloc);
    for callee in functions {
        defined.push(callee.is_defined)?;
    }
    Ok(defined)
}

/// The table of these facts of a view. Fails where memory is wanting.
pub fn keep(alloc: Global, view: View, rows: Rows) -> Result<Facts, Memory>
    requires { IsSmall (layout_of view) }
    ensures { IfOk result (λ facts. spec.IsTableOf view rows facts) }
{
    let sites = sites_of(alloc, view.nodes.as_slice())?;
    let defined = defined_in(alloc, view.functions.as_slice())?;
    let occurrences = view.nodes.as_slice().len() as u32;
    Ok(Facts {
        rows,
        occurrences,
        parts: view.parts,
        sites,
        defined,
    })
}
