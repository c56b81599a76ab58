//! Couplings through devices: which are listed, which runs exercise them, and their table (docs/devices.md).
//!
//! A component writes a device by calling a function of the environment, and another reads it by calling another one.
//! [`list_devices`] lists the couplings between such calls: what they are say `specs/Listed.antt` and, of a run,
//! `specs/Exercised.antt`. [`mark_devices`] runs the tests and finds for each row the first one that exercises it,
//! [`devices_csv`] writes the table, and [`report_devices`] does it all.
#![tactic(auto)]

mod asked;
mod asks;
mod fault;
mod listing;
mod marking;
mod names;
mod records;
mod reporting;
mod role;
mod row;
mod table;
mod tables;
mod watching;

pub use fault::{DeviceReportFault, MarkFault};
pub use listing::list_devices;
pub use marking::mark_devices;
pub use reporting::{DeviceReport, report_devices};
pub use row::{DeviceMarks, DeviceRow, DeviceRows};
pub use table::devices_csv;
