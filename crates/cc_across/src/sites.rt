// Which functions the calls may call.
ghost use Rattle.std.specs.Prelude.{◌≡◌, ◌↔◌, ◌+◌, ◌<◌, ◌^◌, [], ◌∷◌, ◌++◌, Contains, IfSome, IfOk, OnOk};
ghost use Rattle.cc_facts.specs.Told.{parts_in};
ghost use Rattle.cc_rows.specs.Gains.{Gains};
ghost use Rattle.cc_across.specs.Pairs.{Pair};
ghost use Rattle.cc_graph.specs.Points.{number};
ghost use Rattle.cc_graph.specs.declared.position.Position.TheVariants.{At};
ghost use Rattle.cc_across.specs.Calling as spec;
ghost use Rattle.cc_across.specs.Sites.{is_there};

use cc_base::Memory;
use cc_facts::{Facts, Target};
use cc_graph::Graph;
use std::alloc::Global;

// The number after those of all functions.
const END: u64 = 1 << 32;

// The function of a number of a target.
fn as_function(facts: &Facts, target: Option<u32>) -> Option<u32>
    ensures is { result ≡ spec.as_function facts.now target }
    ensures small { IfSome result (λ g. parts_in facts.now + g < 2 ^ 32) }
{
    match target {
        Some(target) => Some(target.saturating_sub(facts.parts().count())),
        None => None,
    }
}

// The least function, from a number on, that the value of the occurrence may be.
fn next_function(facts: &Facts, o: u32, from: u32) -> Option<u32>
    ensures { spec.IsNextFunction facts.now o from result }
{
    match facts.number(Target::Function(from)) {
        Some(start) => as_function(facts, facts.next_value(o, start)),
        None => None,
    }
}

fn push_pair(pairs: &mut Vec<(u32, u32)>, site: u32, g: u32) -> Result<(), Memory>
    ensures { OnOk result (pairs.new.items ≡ pairs.old.items ++ (site, g) ∷ []) }
{
    pairs.push((site, g))?;
    Ok(())
}

// Adds a site with a function, if that has a body.
fn push_defined(pairs: &mut Vec<(u32, u32)>, facts: &Facts, site: u32, g: u32) -> Result<(), Memory>
    ensures { OnOk result (Gains pairs.old.items pairs.new.items (spec.IsDefinedAt facts.now site g)) }
{
    if facts.is_defined(g) {
        push_pair(pairs, site, g)
    } else {
        Ok(())
    }
}

// Adds a site with the least function, from a number on, that the value of what it calls may be, if that has a body. Tells
// from which number on there may be further ones.
fn push_next(
    pairs: &mut Vec<(u32, u32)>,
    facts: &Facts,
    site: u32,
    designator: u32,
    from: u32,
) -> Result<u64, Memory>
    ensures later { IfOk result (λ next. from < next) }
    ensures gains { IfOk result (λ next. Gains pairs.old.items pairs.new.items
        (spec.IsCalleeBetween facts.now site designator from next)) }
{
    match next_function(facts, designator, from) {
        Some(g) => {
            push_defined(pairs, facts, site, g)?;
            Ok(u64::from(g) + 1)
        }
        None => Ok(END),
    }
}

// Adds a site with each function with a body that the value of what it calls may be.
fn push_callees(
    pairs: &mut Vec<(u32, u32)>,
    facts: &Facts,
    site: u32,
    designator: u32,
) -> Result<(), Memory>
    ensures { OnOk result (Gains pairs.old.items pairs.new.items
        (spec.IsCalleeOf facts.now site designator)) }
{
    let mut from: u64 = 0;
    while from < END {
        from = push_next(pairs, facts, site, designator, from as u32)?;
    }
    Ok(())
}

// Adds a site with each function that it may call.
fn push_site(pairs: &mut Vec<(u32, u32)>, facts: &Facts, site: u32) -> Result<(), Memory>
    ensures { OnOk result (Gains pairs.old.items pairs.new.items (spec.IsCallee facts.now site)) }
{
    match facts.designator(site) {
        Some(designator) => push_callees(pairs, facts, site, designator),
        None => Ok(()),
    }
}

fn is_evaluated(graph: &Graph, n: u32) -> bool
    ensures { result ≡ is_there (number graph.now.rows (At n)) }
{
    graph.at(n).is_some()
}

// The same, if it is a call that is evaluated.
fn push_call(
    pairs: &mut Vec<(u32, u32)>,
    graph: &Graph,
    facts: &Facts,
    n: u32,
) -> Result<(), Memory>
    ensures { OnOk result (Gains pairs.old.items pairs.new.items (spec.IsCallAt graph.now facts.now n)) }
{
    if is_evaluated(graph, n) {
        push_site(pairs, facts, n)
    } else {
        Ok(())
    }
}

/// The calls among so many nodes that are evaluated, each with the functions that it may call.
pub(crate) fn all_calls(
    alloc: Global,
    nodes: u32,
    graph: &Graph,
    facts: &Facts,
) -> Result<Vec<(u32, u32)>, Memory>
    ensures { IfOk result (λ pairs. (x : Pair)
        → Contains pairs.items x ↔ spec.IsCall graph.now facts.now nodes x) }
{
    let mut pairs = Vec::new(alloc);
    for n in 0..nodes {
        push_call(&mut pairs, graph, facts, n)?;
    }
    Ok(pairs)
}
