// What is known of slots and nodes.
ghost use Rattle.std.specs.Prelude.{◌≡◌, slice_get};
ghost use Rattle.cc_listed.specs.Tabled as spec;

use cc_base::List;

/// Which stretches are clear for a slot.
#[derive(Clone, Copy)]
pub enum Kind {
    /// A slot of a static object without an array step: an access by name ends a stretch.
    Named,
    /// A slot with an array step, or of a local or formal whose address is taken: any path is a clear stretch.
    Open,
    /// A slot of a local or formal whose address is never taken: the stretch stays in its function.
    Inside,
}

/// A slot.
#[derive(Clone, Copy)]
pub struct Slot {
    /// The node of the declarator or literal of its object.
    pub object: u32,
    pub kind: Kind,
}

/// What is known of a node.
#[derive(Clone, Copy)]
pub struct Occurrence {
    /// The component of its file.
    pub component: u32,
    /// Whether it is a name with `.` members only, parentheses aside.
    pub by_name: bool,
}

/// What is known of slots and of nodes, by number.
#[derive(Drop)]
pub struct Tables {
    pub slots: List<Slot>,
    pub occurrences: List<Occurrence>,
}

/// A write or a read of a slot at a point, by a node.
#[derive(Clone, Copy)]
pub struct Access {
    pub point: u32,
    pub slot: u32,
    /// The lvalue; of a definition that is none the declarator, the literal or the argument.
    pub occurrence: u32,
}

/// Who uses which slot at which point.
#[derive(Clone, Copy)]
pub struct Uses<'a> {
    /// What lvalues write, by assignments and steps. They are definitions.
    pub writes: &'a [Access],
    /// The other definitions, but for arguments: of initialised objects, string literals and formals of entries.
    pub given: &'a [Access],
    /// The arguments that sites in live functions pass to formals.
    pub passed: &'a [Access],
    /// What lvalues read.
    pub reads: &'a [Access],
}

/// The slot of this number.
pub fn slot_at(tables: &Tables, slot: u32) -> Option<Slot>
    ensures { result ≡ slice_get tables.now.slots slot }
{
    tables.slots.as_slice().get(slot as usize).copied()
}

fn occurrence_at(tables: &Tables, o: u32) -> Option<Occurrence>
    ensures { result ≡ slice_get tables.now.occurrences o }
{
    tables.occurrences.as_slice().get(o as usize).copied()
}

/// The component of a node; 0 where there is no such node.
pub fn component_of(tables: &Tables, o: u32) -> u32
    ensures { result ≡ spec.component_of tables.now o }
{
    match occurrence_at(tables, o) {
        Some(occurrence) => occurrence.component,
        None => 0,
    }
}

/// Whether a node is an lvalue by name.
pub fn is_by_name(tables: &Tables, o: u32) -> bool
    ensures { result ≡ spec.is_by_name tables.now o }
{
    match occurrence_at(tables, o) {
        Some(occurrence) => occurrence.by_name,
        None => false,
    }
}

/// Whether an access by name ends stretches for the slot.
pub fn is_named(tables: &Tables, slot: u32) -> bool
    ensures { result ≡ spec.is_named tables.now slot }
{
    match slot_at(tables, slot) {
        Some(slot) => match slot.kind {
            Kind::Named => true,
            _ => false,
        },
        None => false,
    }
}

/// Whether stretches for the slot may leave a function.
pub fn is_across(tables: &Tables, slot: u32) -> bool
    ensures { result ≡ spec.is_across tables.now slot }
{
    match slot_at(tables, slot) {
        Some(slot) => match slot.kind {
            Kind::Inside => false,
            _ => true,
        },
        None => false,
    }
}
