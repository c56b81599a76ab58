// Declarators in blocks.

use crate::storage::{Judged, Region, check_object, form, judged_declarator, word_of};
use crate::values::{check_given, completed_type, given, lacks_length};
use cc_base::Memory;
use cc_declare::{Checker, Formed, Named, Specified, name_of};
use cc_declare_cycle::declarator;
use cc_symbols::{Declared, Form, Linkage, rule};
use cc_tree::{Init, Value};
use cc_tree_notes::Counted;
use cc_types::TypeId;
use std::alloc::Global;

// What a declarator in a block declares.
fn inner_declared<'a>(
    checker: &Checker<'a>,
    note: Counted,
    form: Form,
    kind: Option<TypeId>,
) -> Declared {
    Declared {
        form,
        linkage: Linkage::Without,
        kind,
        node: note.number,
        file: checker.file,
        is_defined: true,
    }
}

// C24 of a function in a block.
fn check_function<'a>(checker: &mut Checker<'a>, note: Counted, form: Form, formed: Formed) {
    let is_broken = formed.is_judged && matches!(form, Form::Function);
    checker.offend_if(is_broken, note, rule::STORAGE_CLASS);
}

// Completes the type of what is declared.
fn complete<'a>(checker: &mut Checker<'a>, note: Counted, number: u32, kind: Option<TypeId>) {
    match kind {
        Some(kind) => checker.retype(note, number, kind),
        None => {}
    }
}

// Completes a declarator whose initialiser is known: C19 and C20 of the whole, and the rules on the initialiser.
fn finish<'a>(
    checker: &mut Checker<'a>,
    note: Counted,
    number: u32,
    form: Form,
    formed: Formed,
    may_lack_length: bool,
    v: &Option<Value<Counted>>,
) -> Result<(), Memory> {
    let kind = completed_type(checker, form, formed.kind, v)?;
    let is_judged = formed.is_judged;
    complete(checker, note, number, kind);
    check_object(
        checker,
        note,
        form,
        Formed { kind, is_judged },
        may_lack_length,
    );
    check_given(checker, form, kind, v);
    Ok(())
}

// Declares what a declarator declares: C18 to C20, C24; and takes its initialiser down. Whether that has types.
fn begin<'a>(
    alloc: Global,
    checker: &mut Checker<'a>,
    named: Named<'a>,
    form: Form,
    formed: Formed,
    v: &'a Option<Value<Counted>>,
) -> Result<(u32, bool), Memory> {
    let what = inner_declared(checker, named.note, form, formed.kind);
    let number = checker.declare(alloc, named, formed.is_judged, what)?;
    check_function(checker, named.note, form, formed);
    check_object(checker, named.note, form, formed, true);
    let is_typed = given(alloc, checker, v)?;
    Ok((number, is_typed))
}

// A declarator with a name and its initialiser.
fn inner_named<'a>(
    alloc: Global,
    checker: &mut Checker<'a>,
    named: Named<'a>,
    form: Form,
    formed: Formed,
    may_lack_length: bool,
    v: &'a Option<Value<Counted>>,
) -> Result<Judged, Memory> {
    let (number, is_typed) = begin(alloc, checker, named, form, formed, v)?;
    finish(
        checker,
        named.note,
        number,
        form,
        formed,
        may_lack_length,
        v,
    )?;
    Ok(judged_declarator(formed, form, is_typed))
}

/// A declarator in a block or in the first clause of a `for`, with its initialiser. An object may lack a length only where
/// its declarator leaves it to a type that has none and an initialiser is there.
pub fn inner_init<'a>(
    alloc: Global,
    checker: &mut Checker<'a>,
    region: Region,
    said: Specified,
    i: &'a Init<Counted>,
) -> Result<Judged, Memory> {
    let is_given = i.value.is_some();
    let formed = declarator(alloc, checker, said.kind, is_given, &i.declarator)?;
    let form = form(region, word_of(said), checker.shape_of(formed.kind));
    let may_lack_length = is_given && !lacks_length(&i.declarator);
    match name_of(&i.declarator) {
        Some(named) => inner_named(
            alloc,
            checker,
            named,
            form,
            formed,
            may_lack_length,
            &i.value,
        ),
        None => Ok(judged_declarator(formed, form, true)),
    }
}
