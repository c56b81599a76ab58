// The table of the call couplings.
ghost use Rattle.std.specs.Prelude.{◌≡◌, ◌++◌, ◌∷◌, [], All, IfNone, IfOk, IfSome, OnOk, codes, map, string_bytes, true};
ghost use Rattle.std.specs.List.{flat_map};
ghost use Rattle.csv.specs.Writing.{default_writer, row_text};
ghost use Rattle.cc_first.specs.Linked.{IsUnlinked};
ghost use Rattle.cc_first.specs.SoundProgram.{IsSound};
ghost use Rattle.cc_first.specs.Listing.{IsListing, IsTable, component_of, place_text};
ghost use Rattle.cc_first.specs.ListingRows.{IsFresh, IsWithin, written};
ghost use Rattle.cc_first.specs.ListingRows.{fields_from, fields_of_call, header_fields, row_fields};
ghost use Rattle.cc_first.specs.Names.{is_free_name};
ghost use Rattle.cc_first.specs.Project.{IsWell};
ghost use Rattle.cc_first.specs.Unit.{HaveFreeNames, program_of};
ghost use Rattle.cc_first.specs.Views.{component_view, parts_view, program_view, project_view};

use crate::paths::coupling_calls;
use crate::program::{Call, Program, link};
use crate::project::{Component, Project};
use crate::unit::Part;
use cc_base::{FileId, Spot};
use csv::{Error as CsvError, Writer, WriterBuilder};
use std::alloc::{AllocError, Global};

// The component that has the file.
fn component_of<'a>(project: &Project<'a>, file: FileId) -> Component<'a>
    ensures { component_view result ≡ component_of (project_view project.now) file.0 }
{
    if file == FileId(0) {
        project.first
    } else {
        project.second
    }
}

// `file:line:column`.
fn place_text(alloc: Global, file: &str, spot: Spot) -> Result<String, AllocError>
    ensures { IfOk result (λ text. string_bytes text ≡ place_text file.now spot) }
{
    let line = spot.line;
    let column = spot.column;
    format!(in alloc; "{file}:{line}:{column}")
}

// A line of the table, but for its kind.
#[derive(Drop)]
struct Row<'a> {
    number: String,
    from: &'a str,
    to: &'a str,
    definition: String,
    used: String,
    name: &'a str,
}

// The row of a call coupling: the call is its definition, the head of the called function its use.
fn row_of<'a>(
    alloc: Global,
    number: usize,
    project: &Project<'a>,
    program: &Program<'a>,
    call: &Call<'a>,
) -> Result<Row<'a>, AllocError>
    requires { IsWithin program.now.functions.items call.now }
    ensures { IfOk result (λ row. row_fields row
        ≡ fields_of_call (project_view project.now) program.now.functions.items number call.now) }
{
    let caller = program.functions[call.caller];
    let callee = program.functions[call.callee];
    let from = component_of(project, caller.file);
    let to = component_of(project, callee.file);
    Ok(Row {
        number: number.to_string(alloc)?,
        from: from.name,
        to: to.name,
        definition: place_text(alloc, from.file, call.name.spot)?,
        used: place_text(alloc, to.file, callee.head.spot)?,
        name: callee.head.text,
    })
}

// The rows of these call couplings, numbered from 1.
fn rows_of<'a>(
    alloc: Global,
    project: &Project<'a>,
    program: &Program<'a>,
    couplings: &[Call<'a>],
) -> Result<Vec<Row<'a>>, AllocError>
    requires { All (IsWithin program.now.functions.items) couplings.now }
    ensures { IfOk result (λ rows. map row_fields rows.items
        ≡ fields_from (project_view project.now) program.now.functions.items 1 couplings.now) }
{
    let mut rows = Vec::new(alloc);
    for (i, call) in couplings.iter().enumerate() {
        rows.push(row_of(alloc, i + 1, project, program, call)?)?;
    }
    Ok(rows)
}

fn write_header(writer: &mut Writer<Vec<u8>>) -> Result<(), CsvError>
    requires { IsFresh writer.old }
    ensures { OnOk result (IsFresh writer.new
        × (written writer.new ≡ written writer.old ++ row_text default_writer header_fields)) }
{
    writer.write_fields(&[
        b"row".as_slice(),
        b"kind".as_slice(),
        b"from".as_slice(),
        b"to".as_slice(),
        b"definition".as_slice(),
        b"use".as_slice(),
        b"name".as_slice(),
    ])
}

fn write_fields(
    writer: &mut Writer<Vec<u8>>,
    number: &str,
    from: &str,
    to: &str,
    definition: &str,
    used: &str,
    name: &str,
) -> Result<(), CsvError>
    requires { IsFresh writer.old }
    ensures { OnOk result (IsFresh writer.new
        × (written writer.new ≡ written writer.old ++ row_text default_writer
        (number.now ∷ codes "call" ∷ from.now ∷ to.now ∷ definition.now ∷ used.now ∷ name.now ∷ []))) }
{
    writer.write_fields(&[
        number.as_bytes(),
        b"call".as_slice(),
        from.as_bytes(),
        to.as_bytes(),
        definition.as_bytes(),
        used.as_bytes(),
        name.as_bytes(),
    ])
}

fn table_text(alloc: Global, rows: &[Row<'_>]) -> Result<Vec<u8>, CsvError>
    ensures { IfOk result (λ text. text.items ≡ row_text default_writer header_fields
        ++ flat_map (λ row. row_text default_writer (row_fields row)) rows.now) }
{
    let mut writer = WriterBuilder::new().from_writer(Vec::new(alloc));
    write_header(&mut writer)?;
    for row in rows {
        write_fields(
            &mut writer,
            row.number.as_str(),
            row.from,
            row.to,
            row.definition.as_str(),
            row.used.as_str(),
            row.name,
        )?;
    }
    match writer.into_inner() {
        Ok(text) => Ok(text),
        Err(e) => Err(e.into_error()),
    }
}

// The table of a program.
fn program_table(
    alloc: Global,
    project: &Project<'_>,
    program: &Program<'_>,
) -> Result<Vec<u8>, AllocError>
    requires well { IsWell (project_view project.now) }
    requires sound { IsSound program.now }
    requires free { All (λ function. is_free_name function.head.text ≡ true) (program_view program.now) }
    ensures { IfOk result (λ text. IsListing (project_view project.now) (program_view program.now)
        program.now.entry text.items) }
{
    let couplings = coupling_calls(alloc, program)?;
    let rows = rows_of(alloc, project, program, &couplings)?;
    match table_text(alloc, &rows) {
        Ok(text) => Ok(text),
        Err(_) => Err(AllocError),
    }
}

/// The table of the two files' program, or none where a name has two bodies, or a called name or the entry has none.
/// The error is want of memory.
pub fn table(
    alloc: Global,
    project: &Project<'_>,
    first: &[Part<'_>],
    second: &[Part<'_>],
) -> Result<Option<Vec<u8>>, AllocError>
    requires well { IsWell (project_view project.now) }
    requires first { HaveFreeNames (parts_view first.now) }
    requires second { HaveFreeNames (parts_view second.now) }
    ensures some { IfOk result (λ table. IfSome table (λ text. IsTable (project_view project.now)
        (program_of (parts_view first.now) (parts_view second.now)) text.items)) }
    ensures none { IfOk result (λ table. IfNone table (IsUnlinked
        (program_of (parts_view first.now) (parts_view second.now)) project.now.entry.now)) }
{
    match link(alloc, first, second, project.entry)? {
        Some(program) => Ok(Some(program_table(alloc, project, &program)?)),
        None => Ok(None),
    }
}
