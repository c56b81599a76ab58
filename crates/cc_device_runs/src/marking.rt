// The first test that exercises each row.
ghost use Rattle.std.specs.Prelude.{◌≤◌, length};

use crate::fault::MarkFault;
use crate::role::roles_of;
use crate::row::{DeviceMarks, DeviceRows};
use crate::watching::{Watcher, untouched};
use cc_acts::{Acts, Stop};
use cc_base::{List, Memory};
use cc_device::DeviceMap;
use cc_graph::Graph;
use cc_interp::run_acts;
use cc_lowering::acts_of;
use cc_meaning::TestList;
use cc_program::Program;
use std::alloc::Global;

/// A run has so many cells at most at any moment.
const MOST_CELLS: u32 = 1_048_576;

// Runs the tests, one after another.
fn run_all(
    alloc: Global,
    acts: &Acts,
    devices: u64,
    tests: &TestList,
    watcher: &mut Watcher<'_>,
) -> Result<(), MarkFault> {
    if tests.len() > u64::from(u32::MAX) {
        return Err(MarkFault::Memory);
    }
    for number in 0..tests.len() {
        watcher.test = number as u32;
        watcher.devices = untouched(alloc, devices)?;
        if let Some(Stop::Lost) = run_acts(alloc, acts, tests.get(number), MOST_CELLS, watcher)? {
            return Err(MarkFault::Lost);
        }
    }
    Ok(())
}

fn listed(alloc: Global, marks: &[Option<u32>]) -> Result<DeviceMarks, Memory> {
    let mut list = List::new(alloc);
    for mark in marks {
        list.push(*mark)?;
    }
    Ok(list)
}

fn no_marks(alloc: Global, count: u64) -> Result<Vec<Option<u32>>, Memory> {
    let mut marks = Vec::new(alloc);
    for _ in 0..count {
        marks.push(None)?;
    }
    Ok(marks)
}

/// For each row the first test whose run exercises it, or none. A run has 1,048,576 cells at most. `graph` has the control
/// points of the program, and the rows stand in order.
pub fn mark_devices(
    alloc: Global,
    program: &Program,
    graph: &Graph,
    devices: &DeviceMap,
    rows: &DeviceRows,
    tests: &TestList,
) -> Result<DeviceMarks, MarkFault>
    requires { length devices.now ≤ 64 }
{
    let acts = acts_of(alloc, program, graph)?;
    let roles = roles_of(alloc, devices.as_slice(), program.functions.as_slice())?;
    let mut watcher = Watcher {
        program,
        roles: roles.as_slice(),
        rows: rows.as_slice(),
        test: 0,
        devices: Vec::new(alloc),
        marks: no_marks(alloc, rows.len())?,
    };
    run_all(alloc, &acts, devices.len(), tests, &mut watcher)?;
    Ok(listed(alloc, watcher.marks.as_slice())?)
}
