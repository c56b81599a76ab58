// Names and places that the table prints.
ghost use Rattle.std.specs.Prelude.{◌≡◌, IfOk, slice_get, string_bytes};
ghost use Rattle.cc_device_runs.specs.Texts as spec;
ghost use Rattle.cc_tables.specs.Names as names;
ghost use Rattle.cc_tables.specs.Tables as tables;

use cc_device::DeviceMap;
use cc_meaning::TestList;
use cc_program::Program;
use std::alloc::{AllocError, Global};

/// The place of a node, `file:line:column`.
pub fn place_text(alloc: Global, program: &Program, node: u32) -> Result<String, AllocError>
    ensures { IfOk result (λ text. string_bytes text ≡ names.place_text program.now node) }
{
    let at = program.place(node);
    let file = program.file_name(at.file);
    let line = at.line;
    let column = at.column;
    format!(in alloc; "{file}:{line}:{column}")
}

/// The name of a node's component.
pub fn component_name(program: &Program, node: u32) -> &str
    ensures { result.now ≡ names.component_text program.now node }
{
    program.component_name(program.component_of(node))
}

/// The name of a device; nothing where there is no such device.
pub fn device_name(devices: &DeviceMap, device: u32) -> &str
    ensures { result.now ≡ spec.name_or (slice_get devices.now device) }
{
    match devices.as_slice().get(device as usize) {
        Some(device) => device.name.as_str(),
        None => "",
    }
}

// The name of a test, or `-` where there is no such test.
fn test_name(tests: &TestList, test: u32) -> &str
    ensures { result.now ≡ tables.name_of (slice_get tests.now test) }
{
    match tests.as_slice().get(test as usize) {
        Some(test) => test.name.as_str(),
        None => "-",
    }
}

/// The name of the test that marks a row, or `-`.
pub fn mark_text(tests: &TestList, mark: Option<Option<u32>>) -> &str
    ensures { result.now ≡ tables.mark_text tests.now mark }
{
    match mark {
        Some(Some(test)) => test_name(tests, test),
        _ => "-",
    }
}
