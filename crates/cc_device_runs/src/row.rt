// Rows of couplings through devices.
use cc_base::List;

/// A coupling through a device. Rows are ordered by these numbers from left to right.
#[derive(Clone, Copy, PartialEq, Eq, PartialOrd, Ord)]
pub struct DeviceRow {
    /// The call of a function that writes the device.
    pub definition: u32,
    /// The call of a function that reads it, in another component.
    pub reader: u32,
    /// The device, by its number.
    pub device: u32,
}

/// Rows, ascending.
pub type DeviceRows = List<DeviceRow>;

/// For each row the number of the first test whose run exercises it, if there is one.
pub type DeviceMarks = List<Option<u32>>;
