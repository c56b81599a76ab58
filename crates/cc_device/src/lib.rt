//! The file of devices: which functions of the environment write and read which device.
//!
//! [`read_devices`] reads the bytes of such a file as TOML and judges the document by the rules V1 to V5 that
//! `docs/devices.md` lists. The rules stand as tests of values in `specs/Rules.antt`, their order as one list in
//! `specs/Order.antt`, and what a document says in `specs/Devices.antt`. As in `cc_project` the code goes over the document
//! twice: first it asks rule after rule (`shape`), and then it copies what is there (`content`).
#![tactic(auto)]

mod content;
mod device;
mod fault;
mod reader;
mod seen;
mod shape;
mod value;

pub use device::{Device, DeviceMap};
pub use fault::{DeviceFault, Key};
pub use reader::read_devices;
