// What a row says, field by field.
ghost use Rattle.std.specs.Prelude.{◌≡◌, IfOk, string_bytes};
ghost use Rattle.cc_tables.specs.Rows as spec;

use crate::names::{component_name, declarator, function_name, object_name, place_text};
use cc_base::Memory;
use cc_meaning::Coupling;
use cc_program::{FuncId, Program};
use std::alloc::Global;

/// What a row says, but for its number.
#[derive(Drop)]
pub struct RowFields<'p> {
    pub kind: &'static str,
    pub from: &'p str,
    pub to: &'p str,
    pub definition: String,
    pub used: String,
    pub name: String,
}

/// What the row of a coupling says.
pub fn row_fields<'p>(
    alloc: Global,
    program: &'p Program,
    row: &Coupling,
) -> Result<RowFields<'p>, Memory>
    ensures { IfOk result (λ fields. spec.fields_in fields ≡ spec.row_fields program.now row.now) }
{
    match *row {
        Coupling::Call { site, callee } => call_fields(alloc, program, site, callee),
        Coupling::Shared {
            definition,
            reader,
            object,
        } => shared_fields(alloc, program, definition, reader, object),
        Coupling::Parameter {
            definition,
            site,
            k,
            callee,
            reader,
        } => parameter_fields(alloc, program, definition, site, k, callee, reader),
        Coupling::Return {
            definition,
            site,
            callee,
        } => return_fields(alloc, program, definition, site, callee),
    }
}

// A row between the components of two nodes.
fn between<'p>(
    alloc: Global,
    program: &'p Program,
    kind: &'static str,
    from: u32,
    to: u32,
    definition: u32,
    used: u32,
    name: String,
) -> Result<RowFields<'p>, Memory>
    ensures { IfOk result (λ fields. spec.fields_in fields
        ≡ spec.between program.now kind.now from to definition used (string_bytes name)) }
{
    let definition = place_text(alloc, program, definition)?;
    let used = place_text(alloc, program, used)?;
    Ok(RowFields {
        kind,
        from: component_name(program, from),
        to: component_name(program, to),
        definition,
        used,
        name,
    })
}

fn call_fields<'p>(
    alloc: Global,
    program: &'p Program,
    site: u32,
    callee: FuncId,
) -> Result<RowFields<'p>, Memory>
    ensures { IfOk result (λ fields. spec.fields_in fields ≡ spec.call_fields program.now site callee) }
{
    let head = declarator(program, callee);
    let name = String::from_str(alloc, function_name(program, callee))?;
    between(alloc, program, "call", site, head, site, head, name)
}

fn shared_fields<'p>(
    alloc: Global,
    program: &'p Program,
    definition: u32,
    reader: u32,
    object: u32,
) -> Result<RowFields<'p>, Memory>
    ensures { IfOk result (λ fields. spec.fields_in fields
        ≡ spec.shared_fields program.now definition reader object) }
{
    let name = String::from_str(alloc, object_name(program, object))?;
    between(
        alloc, program, "shared", definition, reader, definition, reader, name,
    )
}

fn parameter_fields<'p>(
    alloc: Global,
    program: &'p Program,
    definition: u32,
    site: u32,
    k: u32,
    callee: FuncId,
    reader: u32,
) -> Result<RowFields<'p>, Memory>
    ensures { IfOk result (λ fields. spec.fields_in fields
        ≡ spec.parameter_fields program.now definition site k callee reader) }
{
    let name = passed_text(alloc, program, site, k, callee)?;
    let head = declarator(program, callee);
    between(
        alloc,
        program,
        "parameter",
        site,
        head,
        definition,
        reader,
        name,
    )
}

// `g/k@place`: argument k of the call of g at this place.
fn passed_text(
    alloc: Global,
    program: &Program,
    site: u32,
    k: u32,
    callee: FuncId,
) -> Result<String, Memory>
    ensures { IfOk result (λ text. string_bytes text ≡ spec.passed_text program.now site k callee) }
{
    let place = place_text(alloc, program, site)?;
    let name = function_name(program, callee);
    let text = format!(in alloc; "{name}/{k}@{place}")?;
    Ok(text)
}

fn return_fields<'p>(
    alloc: Global,
    program: &'p Program,
    definition: u32,
    site: u32,
    callee: FuncId,
) -> Result<RowFields<'p>, Memory>
    ensures { IfOk result (λ fields. spec.fields_in fields
        ≡ spec.return_fields program.now definition site callee) }
{
    let head = declarator(program, callee);
    let name = String::from_str(alloc, function_name(program, callee))?;
    between(alloc, program, "return", head, site, definition, site, name)
}
