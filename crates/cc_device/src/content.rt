// What a document says.
ghost use Rattle.std.specs.Prelude.{◌≡◌, IfOk, map};
ghost use Rattle.toml.specs.View.{view};
ghost use Rattle.cc_project.specs.Views.{all_data, texts_of};
ghost use Rattle.cc_device.specs.Devices.{device_of, devices_of};

use crate::device::{Device, DeviceMap};
use crate::value::{at_key, items_in, text_in, text_of};
use cc_base::{List, Memory, Text};
use cc_project::TextList;
use std::alloc::Global;
use toml::Value;

// A text of its own.
fn copy(alloc: Global, text: &str) -> Result<Text, Memory>
    ensures { IfOk result (λ copied. copied ≡ text.now) }
{
    Ok(Text::new(String::from_str(alloc, text)?))
}

// The strings of these items.
fn texts(alloc: Global, items: &[Value]) -> Result<TextList, Memory>
    ensures { IfOk result (λ list. list ≡ texts_of items.now) }
{
    let mut list = List::new(alloc);
    for item in items {
        list.push(copy(alloc, text_of(item))?)?;
    }
    Ok(list)
}

// The device that a table says.
fn device(alloc: Global, value: &Value) -> Result<Device, Memory>
    ensures { IfOk result (λ device. device ≡ device_of (view value.now)) }
{
    let name = copy(alloc, text_in(at_key(value, "name")))?;
    let writes = texts(alloc, items_in(at_key(value, "writes")))?;
    let reads = texts(alloc, items_in(at_key(value, "reads")))?;
    Ok(Device {
        name,
        writes,
        reads,
    })
}

// The devices that these tables say.
fn listed(alloc: Global, items: &[Value]) -> Result<DeviceMap, Memory>
    ensures { IfOk result (λ list. list ≡ map device_of (all_data items.now)) }
{
    let mut list = List::new(alloc);
    for item in items {
        list.push(device(alloc, item)?)?;
    }
    Ok(list)
}

/// The devices that a document says.
pub fn devices(alloc: Global, document: &Value) -> Result<DeviceMap, Memory>
    ensures { IfOk result (λ devices. devices ≡ devices_of (view document.now)) }
{
    listed(alloc, items_in(at_key(document, "device")))
}
