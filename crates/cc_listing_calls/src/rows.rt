// Parameter rows.
ghost use Rattle.std.specs.Prelude.{◌≡◌, Contains, OnOk, Err, slice_get};
ghost use Rattle.cc_rows.specs.Gains.{Gains, Or, Each};
ghost use Rattle.cc_rows.specs.Limits.{HasMore};
ghost use Rattle.cc_rows.specs.Order.{row_cmp};
ghost use Rattle.cc_rows.specs.declared.stop.Stop.TheVariants.{TooMany};
ghost use Rattle.cc_flows.specs.Masks.{row_of};
ghost use Rattle.cc_listing_calls.specs.Rows as spec;

use crate::onward::argument_at;
use cc_base::List;
use cc_listed::{Argument, Call, Formal};
use cc_rows::{Row, Stop, add_row};

/// What arguments hand over and formals take.
#[derive(Clone, Copy)]
pub struct Passing<'a> {
    /// The arguments of sites that hand something over.
    pub arguments: &'a [Argument],
    /// The formals of functions.
    pub formals: &'a [Formal],
    /// For each node of a call the numbers of its arguments.
    pub by_site: &'a [List<u32>],
    /// For each node of a function the numbers of its formals.
    pub by_callee: &'a [List<u32>],
    /// For each named read the definitions that reach it.
    pub sources: &'a [List<u32>],
    /// For each formal who reads it first.
    pub taken: &'a [List<u32>],
}

/// The items of a row; none past the last one.
pub fn items_at(rows: &[List<u32>], at: u32) -> &[u32]
    ensures { result.now ≡ row_of rows.now at }
{
    match rows.get(at as usize) {
        Some(row) => row.as_slice(),
        None => &[],
    }
}

/// These definitions, or where a read is named those that reach it.
pub fn definitions_of<'a>(own: &'a [u32], sources: &'a [List<u32>], named: Option<u32>) -> &'a [u32]
    ensures { result.now ≡ spec.definitions_of own.now sources.now named }
{
    match named {
        Some(number) => items_at(sources, number),
        None => own,
    }
}

// The row of a definition that is handed over, and taken by a reader.
fn parameter(call: Call, argument: Argument, definition: u32, reader: u32) -> Row
    ensures { result ≡ spec.parameter call argument definition reader }
{
    Row::Parameter {
        definition,
        site: call.site,
        argument: argument.number,
        callee: call.callee,
        reader,
    }
}

// Adds a row for each of the readers.
fn add_readers(
    rows: &mut Vec<Row>,
    most: usize,
    call: Call,
    argument: Argument,
    readers: &[u32],
    definition: u32,
) -> Result<(), Stop>
    ensures rows { OnOk result (Gains rows.old.items rows.new.items
        (spec.OfDefinition call argument readers.now definition)) }
    ensures many { result ≡ Err TooMany → HasMore row_cmp (Or rows.old.items
        (spec.OfDefinition call argument readers.now definition)) most }
{
    for reader in readers {
        add_row(rows, parameter(call, argument, definition, *reader), most)?;
    }
    Ok(())
}

// Adds the rows of each of the definitions.
fn add_definitions(
    rows: &mut Vec<Row>,
    most: usize,
    call: Call,
    argument: Argument,
    readers: &[u32],
    definitions: &[u32],
) -> Result<(), Stop>
    ensures rows { OnOk result (Gains rows.old.items rows.new.items
        (Each definitions.now (spec.OfDefinition call argument readers.now))) }
    ensures many { result ≡ Err TooMany → HasMore row_cmp (Or rows.old.items
        (Each definitions.now (spec.OfDefinition call argument readers.now))) most }
{
    for definition in definitions {
        add_readers(rows, most, call, argument, readers, *definition)?;
    }
    Ok(())
}

fn formal_at(formals: &[Formal], j: u32) -> Option<Formal>
    ensures { result ≡ slice_get formals.now j }
{
    formals.get(j as usize).copied()
}

// Whether the formal of this number takes an argument.
fn takes(formals: &[Formal], argument: Argument, j: u32) -> bool
    ensures { result ≡ spec.takes formals.now argument j }
{
    match formal_at(formals, j) {
        Some(formal) => formal.number == argument.number,
        None => false,
    }
}

// Adds the rows of an argument and the formal of this number.
fn add_formal(
    rows: &mut Vec<Row>,
    most: usize,
    passing: Passing,
    call: Call,
    argument: Argument,
    j: u32,
) -> Result<(), Stop>
    ensures rows { OnOk result (Gains rows.old.items rows.new.items
        (spec.OfFormal passing.entry call argument j)) }
    ensures many { result ≡ Err TooMany → HasMore row_cmp (Or rows.old.items
        (spec.OfFormal passing.entry call argument j)) most }
{
    if !takes(passing.formals, argument, j) {
        return Ok(());
    }
    let own = [argument.occurrence];
    add_definitions(
        rows,
        most,
        call,
        argument,
        items_at(passing.taken, j),
        definitions_of(&own, passing.sources, argument.named),
    )
}

// Adds the rows of an argument and these formals.
fn add_formals(
    rows: &mut Vec<Row>,
    most: usize,
    passing: Passing,
    call: Call,
    argument: Argument,
    formals: &[u32],
) -> Result<(), Stop>
    ensures rows { OnOk result (Gains rows.old.items rows.new.items
        (Each formals.now (spec.OfFormal passing.entry call argument))) }
    ensures many { result ≡ Err TooMany → HasMore row_cmp (Or rows.old.items
        (Each formals.now (spec.OfFormal passing.entry call argument))) most }
{
    for formal in formals {
        add_formal(rows, most, passing, call, argument, *formal)?;
    }
    Ok(())
}

// Adds the rows of the argument of this number.
fn add_argument(
    rows: &mut Vec<Row>,
    most: usize,
    passing: Passing,
    call: Call,
    i: u32,
) -> Result<(), Stop>
    ensures rows { OnOk result (Gains rows.old.items rows.new.items
        (spec.OfArgument passing.entry call i)) }
    ensures many { result ≡ Err TooMany → HasMore row_cmp (Or rows.old.items
        (spec.OfArgument passing.entry call i)) most }
{
    match argument_at(passing.arguments, i) {
        Some(argument) => add_formals(
            rows,
            most,
            passing,
            call,
            argument,
            items_at(passing.by_callee, call.callee),
        ),
        None => Ok(()),
    }
}

// Adds the rows of these arguments.
fn add_arguments(
    rows: &mut Vec<Row>,
    most: usize,
    passing: Passing,
    call: Call,
    arguments: &[u32],
) -> Result<(), Stop>
    ensures rows { OnOk result (Gains rows.old.items rows.new.items
        (Each arguments.now (spec.OfArgument passing.entry call))) }
    ensures many { result ≡ Err TooMany → HasMore row_cmp (Or rows.old.items
        (Each arguments.now (spec.OfArgument passing.entry call))) most }
{
    for argument in arguments {
        add_argument(rows, most, passing, call, *argument)?;
    }
    Ok(())
}

// Adds the rows of a call.
fn add_passes(rows: &mut Vec<Row>, most: usize, passing: Passing, call: Call) -> Result<(), Stop>
    ensures rows { OnOk result (Gains rows.old.items rows.new.items
        (spec.OfCall passing.entry call)) }
    ensures many { result ≡ Err TooMany → HasMore row_cmp (Or rows.old.items
        (spec.OfCall passing.entry call)) most }
{
    add_arguments(
        rows,
        most,
        passing,
        call,
        items_at(passing.by_site, call.site),
    )
}

/// Adds the parameter rows of these calls.
pub fn add_parameters(
    rows: &mut Vec<Row>,
    most: usize,
    passing: Passing,
    calls: &[Call],
) -> Result<(), Stop>
    ensures rows { OnOk result (Gains rows.old.items rows.new.items
        (Each calls.now (spec.OfCall passing.entry))) }
    ensures many { result ≡ Err TooMany → HasMore row_cmp (Or rows.old.items
        (Each calls.now (spec.OfCall passing.entry))) most }
{
    for call in calls {
        add_passes(rows, most, passing, *call)?;
    }
    Ok(())
}
