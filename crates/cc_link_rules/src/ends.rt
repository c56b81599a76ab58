// What a file defines has a complete type at the file's end.
ghost use Rattle.std.specs.Prelude.{◌≡◌};
ghost use Rattle.cc_link_rules.specs.Ends as spec;

use crate::defining::{Definitions, definition_here};
use crate::fault::{Fault, broken_if, next_file, noted};
use crate::rule;
use cc_base::FileId;
use cc_symbols::{CheckedUnit, Declared, Form, Outer, Slots};
use cc_types::{Structs, TypeId, TypeTable};

/// The type of a declaration; none where it has none, or there is no such declaration.
pub fn kind_of(declared: &Slots<Declared>, declaration: u32) -> Option<TypeId>
    ensures { result ≡ spec.kind_of declared.now declaration }
{
    match declared.get(declaration) {
        Some(declared) => declared.kind,
        None => None,
    }
}

// Whether a type isn't complete, where these are the structs.
fn is_incomplete(types: &TypeTable, structs: &Structs, kind: Option<TypeId>) -> bool
    ensures { result ≡ spec.is_incomplete types.now structs.now kind }
{
    match kind {
        Some(kind) => !structs.measure(types, types.shape(kind)).is_complete,
        None => false,
    }
}

// Whether this is an object's form.
fn is_object(form: Form) -> bool
    ensures { result ≡ spec.is_object form }
{
    matches!(form, Form::Object(_))
}

// K9 at a declarator.
fn end_one(
    types: &TypeTable,
    declared: &Slots<Declared>,
    definitions: &Definitions,
    structs: &Structs,
    outer: &Outer,
) -> Option<u8>
    ensures { result ≡ spec.end_one types.now declared.now definitions.now structs.now outer.now }
{
    let is_defined_here = is_object(outer.form) && definition_here(definitions, outer).is_some();
    let kind = kind_of(declared, outer.declaration);
    broken_if(
        is_defined_here && is_incomplete(types, structs, kind),
        rule::COMPLETE_OBJECT,
    )
}

// The declarators of a file.
fn end_file(
    types: &TypeTable,
    declared: &Slots<Declared>,
    definitions: &Definitions,
    least: Option<Fault>,
    file: FileId,
    unit: &CheckedUnit,
) -> Option<Fault>
    ensures { result ≡ spec.end_file types.now declared.now definitions.now file unit.now.structs unit.now.outers least }
{
    let mut so_far = least;
    for outer in unit.outers.as_slice() {
        let broken = end_one(types, declared, definitions, &unit.structs, outer);
        so_far = noted(so_far, broken, file, outer.spot);
    }
    so_far
}

/// The least fault of K9.
pub fn end_files(
    types: &TypeTable,
    declared: &Slots<Declared>,
    definitions: &Definitions,
    units: &[CheckedUnit],
) -> Option<Fault>
    ensures { result ≡ spec.end_files types.now declared.now definitions.now units.now }
{
    let mut least = None;
    let mut file = FileId(0);
    for unit in units {
        least = end_file(types, declared, definitions, least, file, unit);
        file = next_file(file);
    }
    least
}
