// The acts on assignments.
ghost use Rattle.std.specs.Prelude.{◌≡◌, ◌<◌, ◌+◌, ◌^◌, IfOk, Some, length, pos, slice_get};
ghost use Rattle.cc_store.specs.Stacks.{first, rest};
ghost use Rattle.cc_store.specs.declared.value.Value.{Value};
ghost use Rattle.cc_acts.specs.Parts as part;
ghost use Rattle.cc_acts.specs.Steps as step;
ghost use Rattle.cc_interp_step.specs.Progress.{behind, done, left, told};

use crate::acts::push;
use crate::machine::{Machine, Outcome};
use crate::places::reach;
use crate::values::{cell, cell_on, change, operate, undefined};
use cc_acts::{Conversion, Entry, Operator, State, Stop};
use cc_base::Memory;
use cc_meaning::{Event, Undef};
use cc_store::{Pointer, Stack, Value};

// Writes the value through the place, by the lvalue; the node has another value then, or the same.
fn put(
    m: &mut Machine,
    lvalue: u32,
    occ: u32,
    next: u32,
    place: Value,
    written: Value,
    value: Value,
) -> Result<Outcome, Memory>
    ensures { IfOk result (λ r. left r m.new ≡ told m.old (step.put lvalue occ next m.old.frame m.old.operands m.old.callers place written value m.old.state)) }
{
    match place {
        Value::Points(p) => match m.state.store.write(p, written) {
            Some(kind) => Ok(Outcome::Stopped(undefined(lvalue, kind))),
            None => {
                let act = m.frame.act;
                m.outbox.push(Event::Def {
                    occ: lvalue,
                    cell: cell(p),
                    act,
                })?;
                m.operands.push(Entry { occ, value })?;
                m.point = next;
                Ok(Outcome::Next)
            }
        },
        Value::Null => Ok(Outcome::Stopped(undefined(lvalue, Undef::NullAccess))),
        Value::Unwritten | Value::Int(_) | Value::Function(_) => Ok(Outcome::Stopped(Stop::Lost)),
    }
}

/// A plain assignment.
pub fn store(
    m: &mut Machine,
    lvalue: u32,
    occ: u32,
    to: Conversion,
    next: u32,
) -> Result<Outcome, Memory>
    ensures { IfOk result (λ r. left r m.new ≡ told m.old (step.store lvalue occ to next m.old.frame (rest m.old.operands) m.old.callers (first m.old.operands) m.old.state)) }
{
    let Some(right) = m.operands.pop() else {
        return Ok(Outcome::Stopped(Stop::Lost));
    };
    let Some(place) = m.operands.pop() else {
        return Ok(Outcome::Stopped(Stop::Lost));
    };
    match change(to, right.value) {
        None => Ok(Outcome::Stopped(Stop::Lost)),
        Some(value) => put(m, lvalue, occ, next, place.value, value, value),
    }
}

// The value that was read, or the one that is written.
fn kept(is_after: bool, old: Value, new: Value) -> Value
    ensures { result ≡ step.kept is_after old new }
{
    if is_after { old } else { new }
}

// Writes what the operator gives of the value that was read, which lies over the place, and the right one.
fn update_with(
    m: &mut Machine,
    lvalue: u32,
    occ: u32,
    operator: Operator,
    to: Conversion,
    is_after: bool,
    next: u32,
    right: Value,
) -> Result<Outcome, Memory>
    ensures { IfOk result (λ r. left r m.new ≡ told m.old (step.step_on lvalue occ operator to is_after next m.old.frame (rest m.old.operands) m.old.callers (first m.old.operands) right m.old.state)) }
{
    let Some(left) = m.operands.pop() else {
        return Ok(Outcome::Stopped(Stop::Lost));
    };
    let Some(place) = m.operands.pop() else {
        return Ok(Outcome::Stopped(Stop::Lost));
    };
    match operate(&m.state, occ, operator, left.value, right) {
        Err(stop) => Ok(Outcome::Stopped(stop)),
        Ok(value) => match change(to, value) {
            None => Ok(Outcome::Stopped(Stop::Lost)),
            Some(value) => {
                let given = kept(is_after, left.value, value);
                put(m, lvalue, occ, next, place.value, value, given)
            }
        },
    }
}

/// A compound assignment.
pub fn update(
    m: &mut Machine,
    lvalue: u32,
    occ: u32,
    operator: Operator,
    to: Conversion,
    next: u32,
) -> Result<Outcome, Memory>
    ensures { IfOk result (λ r. left r m.new ≡ told m.old (step.update lvalue occ operator to next m.old.frame (rest m.old.operands) m.old.callers (first m.old.operands) m.old.state)) }
{
    match m.operands.pop() {
        None => Ok(Outcome::Stopped(Stop::Lost)),
        Some(right) => update_with(m, lvalue, occ, operator, to, false, next, right.value),
    }
}

/// A step.
pub fn step_by_one(
    m: &mut Machine,
    lvalue: u32,
    occ: u32,
    operator: Operator,
    to: Conversion,
    is_after: bool,
    next: u32,
) -> Result<Outcome, Memory>
    ensures { IfOk result (λ r. left r m.new ≡ told m.old (step.step_on lvalue occ operator to is_after next m.old.frame (rest m.old.operands) m.old.callers (first m.old.operands) (Value.Int (pos 1)) m.old.state)) }
{
    update_with(m, lvalue, occ, operator, to, is_after, next, Value::Int(1))
}

// Writes the values into the cells from the one on that the pointer points to.
fn write_cells(
    state: &mut State,
    outbox: &mut Stack<Event>,
    occ: u32,
    act: u64,
    p: Pointer,
    values: &[Entry],
) -> Result<Option<Stop>, Memory>
    requires { p.base + length values.now < 2 ^ 32 }
    ensures { IfOk result (λ r. behind outbox.new (done r state.new) ≡ behind outbox.old (part.write_cells occ act p 0 values.now state.old)) }
{
    for (k, entry) in values.iter().enumerate() {
        let q = cell_on(p, k as u32);
        match state.store.write(q, entry.value) {
            Some(kind) => return Ok(Some(undefined(occ, kind))),
            None => outbox.push(Event::Def {
                occ,
                cell: cell(q),
                act,
            })?,
        }
    }
    Ok(None)
}

// Writes the values into the cells of the struct that the place points to.
fn copy_cells(
    state: &mut State,
    outbox: &mut Stack<Event>,
    occ: u32,
    act: u64,
    place: Value,
    count: u32,
    values: &[Entry],
) -> Result<Option<Stop>, Memory>
    ensures { IfOk result (λ r. behind outbox.new (done r state.new) ≡ behind outbox.old (part.copy occ act count place values.now state.old)) }
{
    match reach(state, occ, count, place)? {
        Err(stop) => Ok(Some(stop)),
        Ok(Value::Points(p)) => {
            if values.len() > (u32::MAX - p.base) as usize {
                return Err(Memory);
            }
            write_cells(state, outbox, occ, act, p, values)
        }
        Ok(Value::Unwritten | Value::Int(_) | Value::Null | Value::Function(_)) => Ok(Some(
            Stop::Lost,
        )),
    }
}

// Writes the values of a struct's cells through the place under them.
fn copy_through(
    m: &mut Machine,
    lvalue: u32,
    occ: u32,
    count: u32,
    next: u32,
    place: Entry,
) -> Result<Outcome, Memory>
    ensures { IfOk result (λ r. left r m.new ≡ told m.old (step.copy_of lvalue occ count next m.old.frame m.old.operands m.old.callers (Some place) m.old.state)) }
{
    let act = m.frame.act;
    let all = m.operands.as_slice();
    let values = &all[all.len().saturating_sub(count as usize)..];
    match copy_cells(
        &mut m.state,
        &mut m.outbox,
        lvalue,
        act,
        place.value,
        count,
        values,
    )? {
        Some(stop) => Ok(Outcome::Stopped(stop)),
        None => {
            m.operands.remove(count as usize + 1);
            push(m, occ, next, Value::Unwritten)
        }
    }
}

/// A struct assignment.
pub fn copy(
    m: &mut Machine,
    lvalue: u32,
    occ: u32,
    count: u32,
    next: u32,
) -> Result<Outcome, Memory>
    ensures { IfOk result (λ r. left r m.new ≡ told m.old (step.copy_of lvalue occ count next m.old.frame m.old.operands m.old.callers (slice_get m.old.operands count) m.old.state)) }
{
    match m.operands.under(count as usize) {
        None => Ok(Outcome::Stopped(Stop::Lost)),
        Some(place) => copy_through(m, lvalue, occ, count, next, place),
    }
}
