// What watches a run and marks the rows that it exercises.
ghost use Rattle.std.specs.Prelude.{◌≡◌};

use crate::role::{Role, role_at};
use crate::row::DeviceRow;
use cc_base::Memory;
use cc_meaning::{Event, Watch};
use cc_program::{FuncId, Program};
use cc_roles::component;
use std::alloc::Global;

/// What the last calls on a device were.
#[derive(Drop)]
pub struct Last {
    /// The last call that wrote it, if there was one.
    pub writer: Option<u32>,
    /// The components that have read it since.
    pub readers: Vec<u32>,
}

/// What watches a run and marks the rows that it exercises with the number of the test, where they have no mark yet. It keeps
/// what the last calls on each device were, and no list of events.
#[derive(Drop)]
pub struct Watcher<'a> {
    pub program: &'a Program,
    pub roles: &'a [Role],
    pub rows: &'a [DeviceRow],
    pub test: u32,
    pub devices: Vec<Last>,
    pub marks: Vec<Option<u32>>,
}

/// Devices that no call has worked on, so many.
pub fn untouched(alloc: Global, count: u64) -> Result<Vec<Last>, Memory> {
    let mut devices = Vec::new(alloc);
    for _ in 0..count {
        devices.push(Last {
            writer: None,
            readers: Vec::new(alloc),
        })?;
    }
    Ok(devices)
}

// Takes a call at `site` that reads a device: tells the last call that wrote it, where it is of another component and this
// component has not read the device since.
fn read(program: &Program, last: &mut Last, site: u32) -> Result<Option<u32>, Memory> {
    let here = component(program, site);
    let Some(writer) = last.writer else {
        return Ok(None);
    };
    if last.readers.contains(&here) {
        return Ok(None);
    }
    last.readers.push(here)?;
    if component(program, writer) == here {
        return Ok(None);
    }
    Ok(Some(writer))
}

impl<'a> Watcher<'a> {
    // Gives a row its mark, if there is such a row and it has none.
    fn mark(&mut self, row: DeviceRow) {
        if let Ok(i) = self.rows.binary_search(&row) {
            if let Some(mark) = self.marks.get_mut(i) {
                if mark.is_none() {
                    *mark = Some(self.test);
                }
            }
        }
    }

    // Takes a call that reads a device.
    fn take_read(&mut self, device: u32, site: u32) -> Result<(), Memory> {
        let Some(last) = self.devices.get_mut(device as usize) else {
            return Ok(());
        };
        if let Some(definition) = read(self.program, last, site)? {
            self.mark(DeviceRow {
                definition,
                reader: site,
                device,
            });
        }
        Ok(())
    }

    // Takes a call that writes a device.
    fn take_write(&mut self, device: u32, site: u32) {
        if let Some(last) = self.devices.get_mut(device as usize) {
            last.writer = Some(site);
            last.readers.clear();
        }
    }

    // Takes a call of a function of the environment.
    fn take(&mut self, site: u32, callee: FuncId) -> Result<(), Memory> {
        let role = role_at(self.roles, callee);
        if let Some(device) = role.reads {
            self.take_read(device, site)?;
        }
        if let Some(device) = role.writes {
            self.take_write(device, site);
        }
        Ok(())
    }
}

impl Watch for Watcher<'_> {
    ghost stands_for = { λ _ _. Unit {0} };

    fn event(&mut self, event: &Event) -> Result<(), Memory> {
        match event {
            Event::Ask { site, callee, .. } => self.take(*site, *callee),
            _ => Ok(()),
        }
    }
}
