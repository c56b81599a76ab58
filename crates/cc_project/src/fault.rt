// Why a project file is refused, and where.
ghost use Rattle.std.specs.Prelude.{◌≡◌, None, OnOk, IfOk, IfErr, string_bytes};
ghost use Rattle.cc_project.specs.Keys.{field_text, key_text};
ghost use Rattle.cc_project.specs.Places.{item_key, member_key};
ghost use Rattle.cc_project.specs.Order.{at, first_failing};
ghost use Rattle.cc_project.specs.Outcome.{Reports};

use cc_base::{Memory, Text};
use std::alloc::{AllocError, Global};

/// How a fault names a place of the document, as `entries[2]` or `component[0].name`. Indices count from 0, and `top` is
/// the document itself.
pub type Key = Text;

/// Why bytes are no project.
#[derive(Debug, Drop)]
pub enum ProjectFault {
    /// The bytes are no TOML document, or no UTF-8.
    NotToml,
    /// The document breaks rule J`rule` at `key`, and no rule before it.
    Shape { key: Key, rule: u8 },
    /// Memory was wanting. No clause says when this comes.
    Memory,
}

impl From<Memory> for ProjectFault {
    ghost use Rattle.std.specs.Prelude.{◌≡◌};
    ghost use Rattle.cc_project.specs.declared.fault.ProjectFault.TheVariants.{Memory};

    ghost from_gives = { λ _ fault. fault ≡ Memory };

    fn from(_: Memory) -> ProjectFault {
        ProjectFault::Memory
    }
}

/// A component or a test, by its array and its number.
#[derive(Clone, Copy)]
pub struct Owner {
    pub array: &'static str,
    pub index: usize,
}

/// A value of the document, or of a component or a test, by its key.
#[derive(Clone, Copy)]
pub struct Field {
    pub owner: Option<Owner>,
    pub name: &'static str,
}

// A value, or an item of it.
#[derive(Clone, Copy)]
struct Place {
    field: Field,
    item: Option<usize>,
}

// The key text of a value.
fn field_key(alloc: Global, field: Field) -> Result<String, AllocError>
    ensures { IfOk result (λ text. string_bytes text ≡ field_text field) }
{
    let name = field.name;
    match field.owner {
        None => String::from_str(alloc, name),
        Some(owner) => {
            let (array, i) = (owner.array, owner.index);
            let key = format!(in alloc; "{array}[{i}].{name}")?;
            Ok(key)
        }
    }
}

// The key text of a place.
fn place_key(alloc: Global, place: Place) -> Result<Key, AllocError>
    ensures { IfOk result (λ text. text ≡ key_text place) }
{
    let key = field_key(alloc, place.field)?;
    match place.item {
        None => Ok(Text::new(key)),
        Some(k) => {
            let key = format!(in alloc; "{key}[{k}]")?;
            Ok(Text::new(key))
        }
    }
}

// `Ok` where the rule holds at the place, and else the fault.
#[tactic(auto, unfolding(crate::specs::Order::at, crate::specs::Order::first_failing))]
fn demand(alloc: Global, place: Place, rule: u8, holds: bool) -> Result<(), ProjectFault>
    ensures ok { OnOk result (first_failing (at (key_text place) rule holds) ≡ None) }
    ensures err { IfErr result (Reports (first_failing (at (key_text place) rule holds))) }
{
    if holds {
        return Ok(());
    }
    match place_key(alloc, place) {
        Ok(key) => Err(ProjectFault::Shape { key, rule }),
        Err(_) => Err(ProjectFault::Memory),
    }
}

/// `Ok` where the rule holds of the value, and else the fault.
pub fn demand_of(alloc: Global, field: Field, rule: u8, holds: bool) -> Result<(), ProjectFault>
    ensures ok { OnOk result (first_failing (at (field_text field) rule holds) ≡ None) }
    ensures err { IfErr result (Reports (first_failing (at (field_text field) rule holds))) }
{
    demand(alloc, Place { field, item: None }, rule, holds)
}

/// `Ok` where the rule holds of item `k`, and else the fault.
pub fn demand_at(
    alloc: Global,
    field: Field,
    k: usize,
    rule: u8,
    holds: bool,
) -> Result<(), ProjectFault>
    ensures ok { OnOk result (first_failing (at (item_key (field_text field) k) rule holds) ≡ None) }
    ensures err { IfErr result (Reports (first_failing (at (item_key (field_text field) k) rule holds))) }
{
    let item = Some(k);
    demand(alloc, Place { field, item }, rule, holds)
}

/// A value of the document itself.
pub fn top(name: &'static str) -> Field
    ensures { field_text result ≡ name.now }
{
    Field { owner: None, name }
}

/// A value of component or test `index`.
pub fn member(array: &'static str, index: usize, name: &'static str) -> Field
    ensures { field_text result ≡ member_key (item_key array.now index) name.now }
{
    let owner = Some(Owner { array, index });
    Field { owner, name }
}
