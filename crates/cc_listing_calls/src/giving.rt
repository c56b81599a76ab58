// Call rows and return rows.
ghost use Rattle.std.specs.Prelude.{◌≡◌, Contains, OnOk, Err, slice_get};
ghost use Rattle.cc_rows.specs.Gains.{Gains, Or, Each};
ghost use Rattle.cc_rows.specs.Limits.{HasMore};
ghost use Rattle.cc_rows.specs.Order.{row_cmp};
ghost use Rattle.cc_rows.specs.declared.stop.Stop.TheVariants.{TooMany};
ghost use Rattle.cc_listing_calls.specs.Givings as spec;

use crate::rows::{definitions_of, items_at};
use cc_base::List;
use cc_listed::{Call, Returned};
use cc_rows::{Row, Stop, add_row};

/// What returns give back.
#[derive(Clone, Copy)]
pub struct Giving<'a> {
    /// The returns with an expression after which the point is reachable.
    pub returns: &'a [Returned],
    /// For each node of a function the numbers of its returns.
    pub by_callee: &'a [List<u32>],
    /// For each named read the definitions that reach it.
    pub sources: &'a [List<u32>],
}

fn call_row(call: Call) -> Row
    ensures { result ≡ spec.call_row call }
{
    Row::Call {
        site: call.site,
        callee: call.callee,
    }
}

/// Adds the call rows of these calls.
pub fn add_calls(rows: &mut Vec<Row>, most: usize, calls: &[Call]) -> Result<(), Stop>
    ensures rows { OnOk result (Gains rows.old.items rows.new.items
        (Each calls.now spec.IsCallOf)) }
    ensures many { result ≡ Err TooMany → HasMore row_cmp (Or rows.old.items
        (Each calls.now spec.IsCallOf)) most }
{
    for call in calls {
        add_row(rows, call_row(*call), most)?;
    }
    Ok(())
}

// The row of a definition that is given back.
fn return_row(call: Call, definition: u32) -> Row
    ensures { result ≡ spec.return_row call definition }
{
    Row::Return {
        definition,
        site: call.site,
        callee: call.callee,
    }
}

// Adds a row for each of the definitions.
fn add_given(rows: &mut Vec<Row>, most: usize, call: Call, definitions: &[u32]) -> Result<(), Stop>
    ensures rows { OnOk result (Gains rows.old.items rows.new.items
        (Each definitions.now (spec.IsReturnOf call))) }
    ensures many { result ≡ Err TooMany → HasMore row_cmp (Or rows.old.items
        (Each definitions.now (spec.IsReturnOf call))) most }
{
    for definition in definitions {
        add_row(rows, return_row(call, *definition), most)?;
    }
    Ok(())
}

fn returned_at(returns: &[Returned], i: u32) -> Option<Returned>
    ensures { result ≡ slice_get returns.now i }
{
    returns.get(i as usize).copied()
}

// Adds the rows of the return of this number.
fn add_returned(
    rows: &mut Vec<Row>,
    most: usize,
    giving: Giving,
    call: Call,
    i: u32,
) -> Result<(), Stop>
    ensures rows { OnOk result (Gains rows.old.items rows.new.items
        (spec.OfReturned giving.entry call i)) }
    ensures many { result ≡ Err TooMany → HasMore row_cmp (Or rows.old.items
        (spec.OfReturned giving.entry call i)) most }
{
    match returned_at(giving.returns, i) {
        Some(returned) => {
            let own = [returned.statement];
            add_given(
                rows,
                most,
                call,
                definitions_of(&own, giving.sources, returned.named),
            )
        }
        None => Ok(()),
    }
}

// Adds the rows of these returns.
fn add_returneds(
    rows: &mut Vec<Row>,
    most: usize,
    giving: Giving,
    call: Call,
    returns: &[u32],
) -> Result<(), Stop>
    ensures rows { OnOk result (Gains rows.old.items rows.new.items
        (Each returns.now (spec.OfReturned giving.entry call))) }
    ensures many { result ≡ Err TooMany → HasMore row_cmp (Or rows.old.items
        (Each returns.now (spec.OfReturned giving.entry call))) most }
{
    for returned in returns {
        add_returned(rows, most, giving, call, *returned)?;
    }
    Ok(())
}

// Adds the return rows of a call.
fn add_asked(rows: &mut Vec<Row>, most: usize, giving: Giving, call: Call) -> Result<(), Stop>
    ensures rows { OnOk result (Gains rows.old.items rows.new.items
        (spec.OfAsking giving.entry call)) }
    ensures many { result ≡ Err TooMany → HasMore row_cmp (Or rows.old.items
        (spec.OfAsking giving.entry call)) most }
{
    add_returneds(
        rows,
        most,
        giving,
        call,
        items_at(giving.by_callee, call.callee),
    )
}

/// Adds the return rows of these calls.
pub fn add_returns(
    rows: &mut Vec<Row>,
    most: usize,
    giving: Giving,
    calls: &[Call],
) -> Result<(), Stop>
    ensures rows { OnOk result (Gains rows.old.items rows.new.items
        (Each calls.now (spec.OfAsking giving.entry))) }
    ensures many { result ≡ Err TooMany → HasMore row_cmp (Or rows.old.items
        (Each calls.now (spec.OfAsking giving.entry))) most }
{
    for call in calls {
        add_asked(rows, most, giving, *call)?;
    }
    Ok(())
}
