// What a file of devices says.
ghost use Rattle.std.specs.Prelude.{◌≡◌};
ghost use Rattle.cc_project.specs.Names as names;

use crate::value::is_among;
use cc_base::{List, Text};
use cc_project::TextList;

/// Devices, in the order of the file, which numbers them from 0.
pub type DeviceMap = List<Device>;

/// A device, and the functions of the environment that work on it.
#[derive(Debug, Drop)]
pub struct Device {
    /// Its name.
    pub name: Text,
    /// The functions that write it.
    pub writes: TextList,
    /// The functions that read it.
    pub reads: TextList,
}

impl Device {
    /// Whether the function of this name writes the device.
    pub fn is_written_by(&self, name: &str) -> bool
        ensures { result ≡ names.is_among self.now.writes name.now }
    {
        is_among(self.writes.as_slice(), name)
    }

    /// Whether the function of this name reads the device.
    pub fn is_read_by(&self, name: &str) -> bool
        ensures { result ≡ names.is_among self.now.reads name.now }
    {
        is_among(self.reads.as_slice(), name)
    }
}
