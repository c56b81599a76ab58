// Typedef names have the same types in all files.
ghost use Rattle.std.specs.Prelude.{◌≡◌, IfOk};
ghost use Rattle.cc_link_rules.specs.Typedefs as spec;

use crate::fault::{Fault, broken_if, next_file, noted};
use crate::linked::{Linked, Links, text_at};
use crate::rule;
use cc_base::{FileId, List, Memory, Text};
use cc_symbols::{CheckedUnit, Form, Outer};

// What is known of a typedef name.
fn typedef(outer: &Outer) -> Linked
    ensures { result ≡ spec.typedef_of outer.now }
{
    Linked {
        first: outer.declaration,
        is_function: false,
        kind: outer.kind,
        definition: None,
        is_environment: false,
    }
}

// A declarator of a typedef name: the rule that it breaks.
fn name_one<'a>(names: &mut Links<'a>, name: &'a str, outer: &Outer) -> Result<Option<u8>, Memory>
    ensures { IfOk result (λ broken. (names.new, broken) ≡ spec.named_one name.now outer.now names.old) }
{
    match names.find(name) {
        None => {
            names.put(name, typedef(outer))?;
            Ok(None)
        }
        Some(linked) => Ok(broken_if(linked.kind.0 != outer.kind.0, rule::SAME_TYPEDEF)),
    }
}

// A declarator of a file.
fn link_one<'a>(
    names: &mut Links<'a>,
    texts: &'a List<Text>,
    least: Option<Fault>,
    file: FileId,
    outer: &Outer,
) -> Result<Option<Fault>, Memory>
    ensures { IfOk result (λ found.
        (names.new, found) ≡ spec.typedef_one texts.now file outer.now (names.old, least)) }
{
    match outer.form {
        Form::Typedef => {
            let broken = name_one(names, text_at(texts, outer.declaration), outer)?;
            Ok(noted(least, broken, file, outer.spot))
        }
        _ => Ok(least),
    }
}

// The declarators of a file.
fn link_file<'a>(
    names: &mut Links<'a>,
    texts: &'a List<Text>,
    least: Option<Fault>,
    file: FileId,
    outers: &[Outer],
) -> Result<Option<Fault>, Memory>
    ensures { IfOk result (λ found.
        (names.new, found) ≡ spec.typedef_file texts.now file outers.now (names.old, least)) }
{
    let mut so_far = least;
    for outer in outers {
        so_far = link_one(names, texts, so_far, file, outer)?;
    }
    Ok(so_far)
}

/// Goes over the typedef names of all files, in project order. The answer is the least fault of K5.
pub fn link_typedefs<'a>(
    names: &mut Links<'a>,
    texts: &'a List<Text>,
    units: &[CheckedUnit],
) -> Result<Option<Fault>, Memory>
    ensures { IfOk result (λ least. (names.new, least) ≡ spec.typedef_files texts.now units.now names.old) }
{
    let mut least = None;
    let mut file = FileId(0);
    for unit in units {
        least = link_file(names, texts, least, file, unit.outers.as_slice())?;
        file = next_file(file);
    }
    Ok(least)
}
