// What is kept of a cell.
ghost use Rattle.std.specs.Prelude.{◌≡◌};
ghost use Rattle.cc_record_tables.specs.Slots as spec;

use cc_record_laws::Passed;

/// What a cell has seen since its last definition.
#[derive(Clone, Copy)]
pub enum Since {
    /// It was written by that definition, and read by the components of these bits.
    Read(u64),
    /// It was passed, and nothing has touched it.
    Passed(Passed),
    /// It was passed, and read.
    Touched,
}

/// What is kept of a cell: its last definition, and what it has seen since.
#[derive(Clone, Copy)]
pub struct Slot {
    pub wrote: Option<u32>,
    pub since: Since,
}

impl Slot {
    /// A cell that this definition has written.
    pub fn defined(definition: u32) -> Slot
        ensures { result ≡ spec.defined definition }
    {
        Slot {
            wrote: Some(definition),
            since: Since::Read(0),
        }
    }

    /// A cell that was passed so, by an argument.
    pub fn passed(argument: Option<u32>, passed: Passed) -> Slot
        ensures { result ≡ spec.passed argument passed }
    {
        Slot {
            wrote: argument,
            since: Since::Passed(passed),
        }
    }

    /// The same cell once this component has read it.
    pub fn read_by(self, component: u32) -> Slot
        ensures { result ≡ spec.read_by component self }
    {
        let since = match self.since {
            Since::Read(readers) => Since::Read(with_reader(readers, component)),
            Since::Passed(_) | Since::Touched => Since::Touched,
        };
        Slot {
            wrote: self.wrote,
            since,
        }
    }

    /// The definition that a read by the component would be the first to read.
    pub fn due(self, component: u32) -> Option<u32>
        ensures { result ≡ spec.due_in self component }
    {
        match self.since {
            Since::Read(readers) => {
                if has_reader(readers, component) {
                    None
                } else {
                    self.wrote
                }
            }
            Since::Passed(_) | Since::Touched => None,
        }
    }

    /// How the cell was passed, if nothing has touched it since.
    pub fn fresh(self) -> Option<Passed>
        ensures { result ≡ spec.fresh_in self }
    {
        match self.since {
            Since::Passed(passed) => Some(passed),
            Since::Read(_) | Since::Touched => None,
        }
    }
}

// Whether the component's bit is set.
fn has_reader(readers: u64, component: u32) -> bool
    ensures { result ≡ spec.has_reader readers component }
{
    component < 64 && (readers >> component) & 1 == 1
}

// With the component's bit set.
fn with_reader(readers: u64, component: u32) -> u64
    ensures { result ≡ spec.with_reader readers component }
{
    if component < 64 {
        readers | (1 << component)
    } else {
        readers
    }
}
