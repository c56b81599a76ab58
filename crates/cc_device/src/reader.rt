// Bytes as devices.
ghost use Rattle.std.specs.Prelude.{IfOk, IfErr, ◌≤◌, length};
ghost use Rattle.cc_device.specs.Outcome.{IsDevices, IsFault};

use crate::device::DeviceMap;
use crate::fault::DeviceFault;
use crate::{content, shape};
use cc_project::Project;
use std::alloc::Global;
use toml::Value;

/// What a file of devices says, beside a project.
///
/// # Errors
///
/// `NotToml` where the bytes are no UTF-8 or TOML refuses them; `Shape` at the first of the rules V1 to V5 that the
/// document breaks, in the order of `docs/devices.md`; `Memory` where memory is wanting.
pub fn read_devices(
    alloc: Global,
    project: &Project,
    bytes: &[u8],
) -> Result<DeviceMap, DeviceFault>
    ensures ok { IfOk result (IsDevices project.now.environment bytes.now) }
    ensures few { IfOk result (λ devices. length devices ≤ 64) }
    ensures err { IfErr result (IsFault project.now.environment bytes.now) }
{
    let document = match toml::table_from_slice(alloc, bytes) {
        Ok(table) => Value::Table(table),
        Err(fault) => {
            return Err(if fault.is_memory() {
                DeviceFault::Memory
            } else {
                DeviceFault::NotToml
            });
        }
    };
    shape::check(alloc, project.environment.as_slice(), &document)?;
    match content::devices(alloc, &document) {
        Ok(devices) => Ok(devices),
        Err(_) => Err(DeviceFault::Memory),
    }
}
