// What `break`, `continue` and `return` lead to.
ghost use Rattle.std.specs.Prelude.{◌≡◌, ◌<◌, ◌^◌, [], length, IfOk};
ghost use Rattle.cc_arena_rules.specs.Inherited.{answer_at, inherited_from, IsInherited};
ghost use Rattle.cc_graph.specs.Scopes as spec;

use cc_arena::{Arena, Node, Placed};
use cc_base::Memory;
use cc_symbols::Slots;
use std::alloc::Global;

/// The loop or `switch` that a `break` leaves, the node before which a `continue` goes on, and the function that a `return`
/// leaves; each where there is one.
#[derive(Clone, Copy)]
pub struct Scope {
    pub leaves: Option<u32>,
    pub goes_on: Option<u32>,
    pub function: Option<u32>,
}

/// The first of both that is there.
pub(crate) fn or(a: Option<u32>, b: u32) -> u32
    ensures { result ≡ spec.or a b }
{
    match a {
        Some(a) => a,
        None => b,
    }
}

fn scope_or_none(scope: Option<Scope>) -> Scope
    ensures { result ≡ spec.scope_or_none scope }
{
    match scope {
        Some(scope) => scope,
        None => Scope {
            leaves: None,
            goes_on: None,
            function: None,
        },
    }
}

// What the parts of the node `n` have, where it has `own` itself.
fn handed(n: u32, node: Node, own: Scope) -> Scope
    ensures { result ≡ spec.handed n node own }
{
    match node {
        Node::Definition(_, _) => Scope {
            leaves: None,
            goes_on: None,
            function: Some(n),
        },
        Node::While(test, _) | Node::Do(_, test) => Scope {
            leaves: Some(n),
            goes_on: Some(test),
            function: own.function,
        },
        Node::For(_, test, each, body) => Scope {
            leaves: Some(n),
            goes_on: Some(or(each, or(test, body))),
            function: own.function,
        },
        Node::Switch(_, _) => Scope {
            leaves: Some(n),
            goes_on: own.goes_on,
            function: own.function,
        },
        _ => own,
    }
}

fn scope_step(n: u32, placed: Placed, own: Option<Scope>) -> Scope
    ensures { result ≡ spec.scope_step n placed own }
{
    handed(n, placed.node, scope_or_none(own))
}

fn answer(scopes: &[Scope], up: u32) -> Option<Scope>
    ensures { result ≡ answer_at scopes.now 0 up }
{
    scopes.get(up as usize).copied()
}

/// What the parts of the node `up` have.
pub(crate) fn scope_at(scopes: &[Scope], up: u32) -> Scope
    ensures { result ≡ spec.scope_at scopes.now up }
{
    scope_or_none(answer(scopes, up))
}

fn all_scopes(alloc: Global, nodes: &[Placed]) -> Result<Slots<Scope>, Memory>
    requires { length nodes.now < 2 ^ 30 }
    ensures { IfOk result (λ all. all ≡ inherited_from spec.scope_step 0 nodes.now 0 []) }
{
    let mut all = Slots::new(alloc);
    for (n, placed) in nodes.iter().enumerate() {
        let own = answer(all.as_slice(), placed.parent);
        all.push(scope_step(n as u32, *placed, own))?;
    }
    Ok(all)
}

/// What the parts of each node have.
pub(crate) fn scopes(alloc: Global, arena: &Arena) -> Result<Slots<Scope>, Memory>
    requires { length arena.now.nodes < 2 ^ 30 }
    ensures all { IfOk result (λ all. all ≡ spec.scopes_of arena.now) }
    ensures each { IfOk result (λ all. IsInherited spec.scope_step 0 arena.now.nodes all) }
{
    let all = all_scopes(alloc, arena.nodes.as_slice())?;
    Ok(all)
}
