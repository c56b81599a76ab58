// By which declarator a file defines a name.
ghost use Rattle.std.specs.Prelude.{◌≡◌, IfOk};
ghost use Rattle.cc_link_rules.specs.Definitions as spec;

use cc_base::Memory;
use cc_symbols::{CheckedUnit, Outer, Role, Slots};
use std::alloc::Global;

/// By declaration, the node of the declarator that defines it in its file.
pub type Definitions = Slots<Option<u32>>;

// The defining declarator, once this one is seen: the one with a body or an initialiser, else the first tentative one
// (C17 6.9.2).
fn chosen(before: Option<u32>, outer: &Outer) -> Option<u32>
    ensures { result ≡ spec.chosen before outer.now }
{
    match (outer.role, before) {
        (Role::Defines, _) => Some(outer.node),
        (Role::Tentative, None) => Some(outer.node),
        (Role::Tentative, Some(node)) => Some(node),
        (Role::Declares, before) => before,
    }
}

fn define(table: &mut Definitions, outer: &Outer)
    ensures { table.new ≡ spec.defined outer.now table.old }
{
    let before = definition_of(table, outer.declaration);
    table.put(outer.declaration, chosen(before, outer));
}

fn define_all(table: &mut Definitions, outers: &[Outer])
    ensures { table.new ≡ spec.all_defined outers.now table.old }
{
    for outer in outers {
        define(table, outer);
    }
}

fn define_units(table: &mut Definitions, units: &[CheckedUnit])
    ensures { table.new ≡ spec.units_defined units.now table.old }
{
    for unit in units {
        define_all(table, unit.outers.as_slice());
    }
}

/// The defining declarators of all files.
pub fn definitions(
    alloc: Global,
    declarations: u32,
    units: &[CheckedUnit],
) -> Result<Definitions, Memory>
    ensures { IfOk result (λ table. table ≡ spec.definitions declarations units.now) }
{
    let mut table = Slots::new(alloc);
    table.grow(declarations, None)?;
    define_units(&mut table, units);
    Ok(table)
}

/// The node of the declarator that defines a declaration in its file.
pub fn definition_of(table: &Definitions, declaration: u32) -> Option<u32>
    ensures { result ≡ spec.definition_of table.now declaration }
{
    match table.get(declaration) {
        Some(definition) => definition,
        None => None,
    }
}

/// The node of this declarator, where it is the one that defines its declaration.
pub fn definition_here(table: &Definitions, outer: &Outer) -> Option<u32>
    ensures { result ≡ spec.definition_here table.now outer.now }
{
    match definition_of(table, outer.declaration) {
        Some(node) if node == outer.node => Some(node),
        _ => None,
    }
}
