// Why a file of devices is refused, and where.
ghost use Rattle.std.specs.Prelude.{◌≡◌, None, OnOk, IfOk, IfErr, string_bytes};
ghost use Rattle.cc_project.specs.Order.{at, first_failing};
ghost use Rattle.cc_device.specs.Keys.{key_text};
ghost use Rattle.cc_device.specs.Outcome.{Reports};

use cc_base::{Memory, Text};
use std::alloc::{AllocError, Global};

/// How a fault names a place of the document, as `device[0].writes[2]`. Indices count from 0, and `top` is the document
/// itself.
pub type Key = Text;

/// Why bytes are no file of devices.
#[derive(Debug, Drop)]
pub enum DeviceFault {
    /// The bytes are no TOML document, or no UTF-8.
    NotToml,
    /// The document breaks rule V`rule` at `key`, and no rule before it.
    Shape { key: Key, rule: u8 },
    /// Memory was wanting. No clause says when this comes.
    Memory,
}

impl From<Memory> for DeviceFault {
    ghost use Rattle.std.specs.Prelude.{◌≡◌};
    ghost use Rattle.cc_device.specs.declared.fault.DeviceFault.TheVariants.{Memory};

    ghost from_gives = { λ _ fault. fault ≡ Memory };

    fn from(_: Memory) -> DeviceFault {
        DeviceFault::Memory
    }
}

/// A place of the document.
#[derive(Clone, Copy)]
pub enum Place {
    /// A value of the document itself, or `top`.
    Top(&'static str),
    /// A device, by its number.
    Device(usize),
    /// A value of a device.
    Member(usize, &'static str),
    /// An item of such a value.
    Item(usize, &'static str, usize),
}

// The key text of a place.
fn key_of(alloc: Global, place: Place) -> Result<String, AllocError>
    ensures { IfOk result (λ text. string_bytes text ≡ key_text place) }
{
    let array = "device";
    match place {
        Place::Top(name) => String::from_str(alloc, name),
        Place::Device(i) => {
            let key = format!(in alloc; "{array}[{i}]")?;
            Ok(key)
        }
        Place::Member(i, name) => {
            let key = format!(in alloc; "{array}[{i}].{name}")?;
            Ok(key)
        }
        Place::Item(i, name, k) => {
            let key = format!(in alloc; "{array}[{i}].{name}[{k}]")?;
            Ok(key)
        }
    }
}

/// `Ok` where the rule holds at the place, and else the fault.
#[tactic(auto, unfolding(cc_project::specs::Order::at, cc_project::specs::Order::first_failing))]
pub fn demand(alloc: Global, place: Place, rule: u8, holds: bool) -> Result<(), DeviceFault>
    ensures ok { OnOk result (first_failing (at (key_text place) rule holds) ≡ None) }
    ensures err { IfErr result (Reports (first_failing (at (key_text place) rule holds))) }
{
    if holds {
        return Ok(());
    }
    match key_of(alloc, place) {
        Ok(key) => Err(DeviceFault::Shape {
            key: Text::new(key),
            rule,
        }),
        Err(_) => Err(DeviceFault::Memory),
    }
}
