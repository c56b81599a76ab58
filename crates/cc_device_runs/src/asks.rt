// Which calls write and read which devices.
ghost use Rattle.std.specs.Prelude.{◌≡◌, ◌<◌, ◌^◌, [], IfOk, OnOk, length};
ghost use Rattle.cc_device_runs.specs.Asking as spec;

use crate::asked::asked;
use crate::role::{Role, role_at};
use cc_arena::{Node, Placed};
use cc_base::Memory;
use cc_graph::{Graph, Point};
use cc_listed::Access;
use cc_program::Program;
use std::alloc::Global;

// What the function that a node calls does with devices.
fn node_role(program: &Program, roles: &[Role], node: Node) -> Role
    ensures { result ≡ spec.node_role program.now roles.now node }
{
    match asked(program, node) {
        Some(f) => role_at(roles, f),
        None => Role {
            writes: None,
            reads: None,
        },
    }
}

fn push_if(
    out: &mut Vec<Access>,
    at: Option<Point>,
    device: Option<u32>,
    n: u32,
) -> Result<(), Memory>
    ensures { OnOk result (out.new.items ≡ spec.access_if at device n out.old.items) }
{
    match (at, device) {
        (Some(point), Some(slot)) => {
            out.push(Access {
                point,
                slot,
                occurrence: n,
            })?;
            Ok(())
        }
        _ => Ok(()),
    }
}

// The calls that write devices, among these nodes.
fn writes_in(
    alloc: Global,
    program: &Program,
    graph: &Graph,
    roles: &[Role],
    nodes: &[Placed],
) -> Result<Vec<Access>, Memory>
    requires { length nodes.now < 2 ^ 32 }
    ensures { IfOk result (λ out. out.items ≡ spec.accesses_in spec.writes_by program.now graph.now roles.now nodes.now 0 []) }
{
    let mut out = Vec::new(alloc);
    for (n, placed) in nodes.iter().enumerate() {
        let role = node_role(program, roles, placed.node);
        push_if(&mut out, graph.at(n as u32), role.writes, n as u32)?;
    }
    Ok(out)
}

// The calls that read devices, among these nodes.
fn reads_in(
    alloc: Global,
    program: &Program,
    graph: &Graph,
    roles: &[Role],
    nodes: &[Placed],
) -> Result<Vec<Access>, Memory>
    requires { length nodes.now < 2 ^ 32 }
    ensures { IfOk result (λ out. out.items ≡ spec.accesses_in spec.reads_by program.now graph.now roles.now nodes.now 0 []) }
{
    let mut out = Vec::new(alloc);
    for (n, placed) in nodes.iter().enumerate() {
        let role = node_role(program, roles, placed.node);
        push_if(&mut out, graph.at(n as u32), role.reads, n as u32)?;
    }
    Ok(out)
}

/// Which calls write and read which devices at which points.
#[derive(Drop)]
pub struct Asks {
    pub writes: Vec<Access>,
    pub reads: Vec<Access>,
}

/// Which calls of a program write and read which devices.
pub fn asks_of(
    alloc: Global,
    program: &Program,
    graph: &Graph,
    roles: &[Role],
) -> Result<Asks, Memory>
    ensures writes { IfOk result (λ asks. asks.writes.items ≡ spec.writes_of program.now graph.now roles.now) }
    ensures reads { IfOk result (λ asks. asks.reads.items ≡ spec.reads_of program.now graph.now roles.now) }
{
    let _nodes = program.arena().count()?;
    let nodes = program.arena().nodes.as_slice();
    Ok(Asks {
        writes: writes_in(alloc, program, graph, roles, nodes)?,
        reads: reads_in(alloc, program, graph, roles, nodes)?,
    })
}
