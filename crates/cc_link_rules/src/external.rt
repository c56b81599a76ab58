// Names with external linkage: they agree over all files, and are defined once.
ghost use Rattle.std.specs.Prelude.{◌≡◌, OnOk, IfOk, IfSome};
ghost use Rattle.cc_link_rules.specs.External as spec;

use crate::defining::{Definitions, definition_here};
use crate::fault::{Fault, broken_if, next_file, noted};
use crate::linked::{Linked, Links, text_at};
use crate::rule;
use cc_base::{FileId, List, Memory, Text};
use cc_symbols::{CheckedUnit, Form, Linkage, Outer};
use cc_types::TypeTable;

/// Whether this is a function's form.
pub fn is_function(form: Form) -> bool
    ensures { result ≡ spec.is_function form }
{
    matches!(form, Form::Function)
}

// Whether a declarator declares a function or an object with external linkage.
fn is_external(outer: &Outer) -> bool
    ensures { result ≡ spec.is_external outer.now }
{
    match (outer.form, outer.linkage) {
        (Form::Function | Form::Object(_), Linkage::External) => true,
        _ => false,
    }
}

// K1 and K2 at one more declarator of a known name, which may define it.
fn again(types: &TypeTable, linked: Linked, outer: &Outer, definition: Option<u32>) -> Option<u8>
    ensures { result ≡ spec.again types.now linked outer.now definition }
{
    if linked.is_function != is_function(outer.form) || !types.compatible(linked.kind, outer.kind) {
        Some(rule::SAME_TYPE)
    } else {
        broken_if(
            linked.definition.is_some() && definition.is_some(),
            rule::ONE_DEFINITION,
        )
    }
}

// What is known of a name by its first declarator.
fn begun(outer: &Outer, definition: Option<u32>) -> Linked
    ensures { result ≡ spec.begun outer.now definition }
{
    Linked {
        first: outer.declaration,
        is_function: is_function(outer.form),
        kind: outer.kind,
        definition,
        is_environment: false,
    }
}

// The first of two definitions.
fn earlier(one: Option<u32>, other: Option<u32>) -> Option<u32>
    ensures { result ≡ spec.earlier one other }
{
    match one {
        Some(node) => Some(node),
        None => other,
    }
}

// What is known of a name with one declarator more.
fn joined(types: &TypeTable, linked: Linked, outer: &Outer, definition: Option<u32>) -> Linked
    ensures { result ≡ spec.joined types.now linked outer.now definition }
{
    Linked {
        first: linked.first,
        is_function: linked.is_function,
        kind: types.composed(linked.kind, outer.kind),
        definition: earlier(linked.definition, definition),
        is_environment: linked.is_environment,
    }
}

// One more declarator of a name, of a function or object with external linkage.
fn declare<'a>(
    links: &mut Links<'a>,
    types: &TypeTable,
    name: &'a str,
    outer: &Outer,
    definition: Option<u32>,
) -> Result<Option<u8>, Memory>
    ensures { IfOk result (λ broken.
        (links.new, broken) ≡ spec.declared types.now name.now outer.now definition links.old) }
{
    match links.find(name) {
        None => {
            links.put(name, begun(outer, definition))?;
            Ok(None)
        }
        Some(linked) => {
            links.put(name, joined(types, linked, outer, definition))?;
            Ok(again(types, linked, outer, definition))
        }
    }
}

// A declarator of a file.
fn link_one<'a>(
    links: &mut Links<'a>,
    types: &TypeTable,
    texts: &'a List<Text>,
    definitions: &Definitions,
    least: Option<Fault>,
    file: FileId,
    outer: &Outer,
) -> Result<Option<Fault>, Memory>
    ensures { IfOk result (λ found.
        (links.new, found) ≡ spec.linked_one types.now texts.now definitions.now file outer.now (links.old, least)) }
{
    if is_external(outer) {
        let name = text_at(texts, outer.declaration);
        let definition = definition_here(definitions, outer);
        let broken = declare(links, types, name, outer, definition)?;
        Ok(noted(least, broken, file, outer.spot))
    } else {
        Ok(least)
    }
}

// The declarators of a file.
fn link_file<'a>(
    links: &mut Links<'a>,
    types: &TypeTable,
    texts: &'a List<Text>,
    definitions: &Definitions,
    least: Option<Fault>,
    file: FileId,
    outers: &[Outer],
) -> Result<Option<Fault>, Memory>
    ensures { IfOk result (λ found.
        (links.new, found) ≡ spec.linked_file types.now texts.now definitions.now file outers.now (links.old, least)) }
{
    let mut so_far = least;
    for outer in outers {
        so_far = link_one(links, types, texts, definitions, so_far, file, outer)?;
    }
    Ok(so_far)
}

/// Takes down the names with external linkage of all files, in project order. The answer is the least fault of K1 and K2.
pub fn link_files<'a>(
    links: &mut Links<'a>,
    types: &TypeTable,
    texts: &'a List<Text>,
    definitions: &Definitions,
    units: &[CheckedUnit],
) -> Result<Option<Fault>, Memory>
    ensures { IfOk result (λ least.
        (links.new, least) ≡ spec.linked_files types.now texts.now definitions.now units.now links.old) }
{
    let mut least = None;
    let mut file = FileId(0);
    for unit in units {
        let outers = unit.outers.as_slice();
        least = link_file(links, types, texts, definitions, least, file, outers)?;
        file = next_file(file);
    }
    Ok(least)
}

// What is known of a name that the project file has among those of the environment.
fn answered(linked: Linked) -> Linked
    ensures { result ≡ spec.answered linked }
{
    Linked {
        first: linked.first,
        is_function: linked.is_function,
        kind: linked.kind,
        definition: linked.definition,
        is_environment: linked.is_function,
    }
}

fn mark<'a>(links: &mut Links<'a>, name: &'a str) -> Result<(), Memory>
    ensures { OnOk result (links.new ≡ spec.marked name.now links.old) }
{
    match links.find(name) {
        Some(linked) => links.put(name, answered(linked)),
        None => Ok(()),
    }
}

/// Marks the functions of the environment among the names.
pub fn mark_all<'a>(links: &mut Links<'a>, names: &'a List<Text>) -> Result<(), Memory>
    ensures { OnOk result (links.new ≡ spec.all_marked names.now links.old) }
{
    for name in names.as_slice() {
        mark(links, name.as_str())?;
    }
    Ok(())
}
