// What a declaration is in the whole program.
ghost use Rattle.std.specs.Prelude.{◌≡◌, IfOk};
ghost use Rattle.cc_link_rules.specs.Standings as spec;

use crate::defining::{Definitions, definition_of};
use crate::fault::next;
use crate::linked::{Linked, Links, text_at};
use cc_base::{List, Memory, Text};
use cc_symbols::{Declared, Form, Life, Linkage, Slots};
use cc_types::TypeId;
use std::alloc::Global;

/// What a declaration is in the whole program.
#[derive(Clone, Copy)]
pub struct Standing {
    /// The first declaration of the same function or object.
    pub first: u32,
    /// The node of the defining declarator, within the linkage.
    pub definition: Option<u32>,
    /// Whether it is a function of the environment.
    pub is_environment: bool,
    /// The type, composed of those of all declarators.
    pub kind: Option<TypeId>,
}

/// By declaration.
pub type Standings = Slots<Standing>;

// A name with external linkage.
fn outside(linked: Linked) -> Standing
    ensures { result ≡ spec.outside linked }
{
    Standing {
        first: linked.first,
        definition: linked.definition,
        is_environment: linked.is_environment,
        kind: Some(linked.kind),
    }
}

// A declaration that is alone with its function or object.
fn alone(number: u32, definition: Option<u32>, kind: Option<TypeId>) -> Standing
    ensures { result ≡ spec.alone number definition kind }
{
    Standing {
        first: number,
        definition,
        is_environment: false,
        kind,
    }
}

// The definition of what has no linkage: its declarator, but for a parameter of what isn't defined there.
fn own_definition(declared: Declared) -> Option<u32>
    ensures { result ≡ spec.own_definition declared }
{
    match declared.form {
        Form::Object(Life::Parameter) => None,
        _ => Some(declared.node),
    }
}

fn external(links: &Links, name: &str, number: u32, kind: Option<TypeId>) -> Standing
    ensures { result ≡ spec.external links.now name.now number kind }
{
    match links.find(name) {
        Some(linked) => outside(linked),
        None => alone(number, None, kind),
    }
}

// What the declaration of this number is.
fn standing_of(
    links: &Links,
    definitions: &Definitions,
    name: &str,
    number: u32,
    declared: Declared,
) -> Standing
    ensures { result ≡ spec.standing_of links.now definitions.now name.now number declared }
{
    match declared.linkage {
        Linkage::External => external(links, name, number, declared.kind),
        Linkage::Internal => alone(number, definition_of(definitions, number), declared.kind),
        Linkage::Without => alone(number, own_definition(declared), declared.kind),
    }
}

/// What each declaration is.
pub fn standings(
    alloc: Global,
    links: &Links,
    definitions: &Definitions,
    texts: &List<Text>,
    declared: &Slots<Declared>,
) -> Result<Standings, Memory>
    ensures { IfOk result (λ table. table ≡ spec.standings links.now definitions.now texts.now declared.now) }
{
    let mut table = Slots::new(alloc);
    let mut number = 0;
    for declared in declared.as_slice() {
        let name = text_at(texts, number);
        table.push(standing_of(links, definitions, name, number, *declared))?;
        number = next(number);
    }
    Ok(table)
}

/// What the declaration of this number is; past the end, what isn't defined.
pub fn standing_at(table: &Standings, number: u32) -> Standing
    ensures { result ≡ spec.standing_at table.now number }
{
    match table.get(number) {
        Some(standing) => standing,
        None => alone(number, None, None),
    }
}
