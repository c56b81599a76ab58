// In which function a node stands, and which functions a node defines.
ghost use Rattle.std.specs.Prelude.{◌≡◌, ◌<◌, ◌^◌, [], length, slice_get, IfOk, OnOk};
ghost use Rattle.cc_program.specs.Programs.{or_none};
ghost use Rattle.cc_graph.specs.Linking.{row_of};
ghost use Rattle.cc_across.specs.Sites as spec;

use crate::pairs::table_of;
use cc_arena::{Arena, Node, Placed};
use cc_base::{List, Memory};
use cc_graph::Graph;
use cc_symbols::Slots;
use std::alloc::Global;

// The function that the parts of the node `n` stand in, where `n` itself stands in `own`.
fn handed(n: u32, node: Node, own: Option<u32>) -> Option<u32>
    ensures { result ≡ spec.handed n node own }
{
    match node {
        Node::Definition(_, _) => Some(n),
        _ => own,
    }
}

// What the parts of a node stand in.
fn owner_at(owners: &[Option<u32>], up: u32) -> Option<u32>
    ensures { result ≡ or_none (slice_get owners.now up) }
{
    match owners.get(up as usize).copied() {
        Some(owner) => owner,
        None => None,
    }
}

fn all_owners(alloc: Global, nodes: &[Placed]) -> Result<Slots<Option<u32>>, Memory>
    requires { length nodes.now < 2 ^ 32 }
    ensures { IfOk result (λ owners. owners ≡ spec.owners_from nodes.now 0 []) }
{
    let mut owners = Slots::new(alloc);
    for (n, placed) in nodes.iter().enumerate() {
        let own = owner_at(owners.as_slice(), placed.parent);
        owners.push(handed(n as u32, placed.node, own))?;
    }
    Ok(owners)
}

fn owner_by(owners: &[Option<u32>], up: Option<u32>) -> Option<u32>
    ensures { result ≡ spec.owner_by owners.now up }
{
    match up {
        Some(up) => owner_at(owners, up),
        None => None,
    }
}

fn push_body(pairs: &mut Vec<(u32, u32)>, definition: Option<u32>, f: u32) -> Result<(), Memory>
    ensures { OnOk result (pairs.new.items ≡ spec.body_pair definition f pairs.old.items) }
{
    if let Some(d) = definition {
        pairs.push((d, f))?;
    }
    Ok(())
}

// The nodes that define functions, each with the function's number.
fn body_pairs(alloc: Global, definitions: &[Option<u32>]) -> Result<Vec<(u32, u32)>, Memory>
    requires { length definitions.now < 2 ^ 32 }
    ensures { IfOk result (λ pairs. pairs.items ≡ spec.body_pairs definitions.now 0 []) }
{
    let mut pairs = Vec::new(alloc);
    for (f, definition) in definitions.iter().enumerate() {
        push_body(&mut pairs, *definition, f as u32)?;
    }
    Ok(pairs)
}

// For each of so many nodes the functions that it defines.
fn bodies_of(alloc: Global, nodes: u32, graph: &Graph) -> Result<Vec<List<u32>>, Memory>
    ensures { IfOk result (λ bodies. spec.AreBodies nodes graph.now bodies.items) }
{
    let _count = graph.definitions.count()?;
    let pairs = body_pairs(alloc, graph.definitions.as_slice())?;
    table_of(alloc, nodes, pairs)
}

fn row_at(rows: &[List<u32>], r: u32) -> &[u32]
    ensures { result.now ≡ row_of rows.now r }
{
    match rows.get(r as usize) {
        Some(row) => row.as_slice(),
        None => &[],
    }
}

/// In which functions nodes stand.
#[derive(Drop)]
pub(crate) struct Owners {
    /// By the number of a node, the node that defines the function in which its parts stand.
    pub owners: Slots<Option<u32>>,
    /// By the number of a node, the numbers of the functions that it defines.
    pub bodies: Vec<List<u32>>,
}

/// In which functions the nodes of a program stand.
pub(crate) fn owners_of(alloc: Global, arena: &Arena, graph: &Graph) -> Result<Owners, Memory>
    ensures { IfOk result (λ it. spec.AreOwners arena.now graph.now it) }
{
    let nodes = arena.count()?;
    let owners = all_owners(alloc, arena.nodes.as_slice())?;
    let bodies = bodies_of(alloc, nodes, graph)?;
    Ok(Owners { owners, bodies })
}

fn functions_by(bodies: &[List<u32>], owner: Option<u32>) -> &[u32]
    ensures { result.now ≡ spec.functions_by bodies.now owner }
{
    match owner {
        Some(d) => row_at(bodies, d),
        None => &[],
    }
}

impl Owners {
    /// The functions in whose body a node stands.
    pub(crate) fn functions_of(&self, arena: &Arena, s: u32) -> &[u32]
        ensures { result.now ≡ spec.functions_of arena.now self.now s }
    {
        let owner = owner_by(self.owners.as_slice(), arena.parent_at(s));
        functions_by(self.bodies.as_slice(), owner)
    }
}
