// Devices as slots that calls write and read.
ghost use Rattle.std.specs.Prelude.{◌≡◌, ◌≤◌, IfOk, length};
ghost use Rattle.cc_device_runs.specs.Tabling as spec;

use cc_base::{List, Memory};
use cc_device::Device;
use cc_listed::{Kind, Occurrence, Slot, Tables};
use cc_program::Program;
use cc_roles::component;
use std::alloc::Global;

// A slot for each of so many devices.
#[tactic(auto, using(crate::proofs::More::slots_more))]
fn slots_of(alloc: Global, devices: u32) -> Result<List<Slot>, Memory>
    ensures { IfOk result (λ slots. slots ≡ spec.slots_to devices) }
{
    let mut slots = List::new(alloc);
    for object in 0..devices {
        slots.push(Slot {
            object,
            kind: Kind::Named,
        })?;
    }
    Ok(slots)
}

// The component of each of so many nodes.
#[tactic(auto, using(crate::proofs::More::occurrences_more))]
fn occurrences_of(alloc: Global, program: &Program, nodes: u32) -> Result<List<Occurrence>, Memory>
    ensures { IfOk result (λ all. all ≡ spec.occurrences_to program.now nodes) }
{
    let mut all = List::new(alloc);
    for n in 0..nodes {
        all.push(Occurrence {
            component: component(program, n),
            by_name: true,
        })?;
    }
    Ok(all)
}

/// What is known of devices, each as a slot, and of the nodes of a program, each of which ends stretches.
pub fn tables_of(alloc: Global, program: &Program, devices: &[Device]) -> Result<Tables, Memory>
    requires { length devices.now ≤ 64 }
    ensures { IfOk result (λ tables. tables ≡ spec.tables_of program.now devices.now) }
{
    let slots = slots_of(alloc, devices.len() as u32)?;
    let nodes = program.arena().count()?;
    let occurrences = occurrences_of(alloc, program, nodes)?;
    Ok(Tables { slots, occurrences })
}
