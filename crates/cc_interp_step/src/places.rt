// The acts on names, places and members.
ghost use Rattle.std.specs.Prelude.{◌≡◌, ◌<◌, ◌≤◌, ◌+◌, ◌^◌, IfOk, slice_get};
ghost use Rattle.cc_store.specs.Stacks.{first, rest};
ghost use Rattle.cc_acts.specs.declared.state.State.{State};
ghost use Rattle.cc_acts.specs.declared.value_act.Gives.{Gives};
ghost use Rattle.cc_acts.specs.Parts as part;
ghost use Rattle.cc_acts.specs.Steps as step;
ghost use Rattle.cc_interp_step.specs.Cells.{read_on};
ghost use Rattle.cc_interp_step.specs.Progress.{given, left, told};

use crate::machine::{Machine, Outcome};
use crate::values::{cell, cell_on, part_of, plus, undefined};
use cc_acts::{Entry, Gives, Named, State, Stop};
use cc_base::Memory;
use cc_meaning::{Event, Undef};
use cc_store::{Pointer, Value};

// A pointer to a part of the element that the value points to, which the lvalue `occ` designates; or why the run stops.
fn inner(
    occ: u32,
    cells: u32,
    offset: u32,
    count: u32,
    place: Value,
) -> Result<Result<Value, Stop>, Memory>
    ensures { IfOk result (λ r. (s : State) → given r s ≡ part.inner occ cells offset count place s) }
{
    match place {
        Value::Points(p) => {
            if p.index < p.length {
                Ok(Ok(Value::Points(part_of(p, cells, offset, count)?)))
            } else {
                Ok(Err(undefined(occ, Undef::PastEnd)))
            }
        }
        Value::Null => Ok(Err(undefined(occ, Undef::NullAccess))),
        Value::Unwritten | Value::Int(_) | Value::Function(_) => Ok(Err(Stop::Lost)),
    }
}

/// A pointer to the struct of so many cells that the value points to, which is to be read or written.
pub fn reach(
    state: &State,
    occ: u32,
    cells: u32,
    place: Value,
) -> Result<Result<Value, Stop>, Memory>
    ensures { IfOk result (λ r. given r state.now ≡ part.reach occ cells place state.now) }
{
    match place {
        Value::Points(p) => {
            if state.store.lives(p) {
                inner(occ, cells, 0, 1, place)
            } else {
                Ok(Err(undefined(occ, Undef::Ended)))
            }
        }
        Value::Null => Ok(Err(undefined(occ, Undef::NullAccess))),
        Value::Unwritten | Value::Int(_) | Value::Function(_) => Ok(Err(Stop::Lost)),
    }
}

// The lvalue gives the value that is read.
fn take_value(m: &mut Machine, occ: u32, next: u32, place: Value) -> Result<Outcome, Memory>
    ensures { IfOk result (λ r. left r m.new ≡ told m.old (step.take_from occ Gives.Value next m.old.frame m.old.operands m.old.callers place m.old.state)) }
{
    match place {
        Value::Points(p) => match m.state.store.read(p) {
            Err(kind) => Ok(Outcome::Stopped(undefined(occ, kind))),
            Ok(value) => {
                let act = m.frame.act;
                m.outbox.push(Event::Use {
                    occ,
                    cell: cell(p),
                    act,
                })?;
                m.operands.push(Entry { occ, value })?;
                m.point = next;
                Ok(Outcome::Next)
            }
        },
        Value::Null => Ok(Outcome::Stopped(undefined(occ, Undef::NullAccess))),
        Value::Unwritten | Value::Int(_) | Value::Function(_) => Ok(Outcome::Stopped(Stop::Lost)),
    }
}

// It gives a pointer to its first element.
fn take_array(
    m: &mut Machine,
    occ: u32,
    length: u32,
    cells: u32,
    next: u32,
    place: Value,
) -> Result<Outcome, Memory>
    ensures { IfOk result (λ r. left r m.new ≡ told m.old (step.take_from occ (Gives.Array length cells) next m.old.frame m.old.operands m.old.callers place m.old.state)) }
{
    match inner(occ, cells, 0, length, place)? {
        Err(stop) => Ok(Outcome::Stopped(stop)),
        Ok(value) => {
            m.operands.push(Entry { occ, value })?;
            m.point = next;
            Ok(Outcome::Next)
        }
    }
}

// The values of `count` cells from the one that the pointer points to, the last one on top.
fn read_cells(
    m: &mut Machine,
    occ: u32,
    count: u32,
    next: u32,
    p: Pointer,
) -> Result<Outcome, Memory>
    ensures { IfOk result (λ r. left r m.new ≡ told m.old (read_on occ p 0 count next m.old.frame m.old.operands m.old.callers m.old.state)) }
{
    if p.base > u32::MAX - count {
        return Err(Memory);
    }
    let act = m.frame.act;
    let mut k: u32 = 0;
    let mut left = count;
    while left > 0 {
        let q = cell_on(p, k);
        match m.state.store.read(q) {
            Err(kind) => return Ok(Outcome::Stopped(undefined(occ, kind))),
            Ok(value) => {
                m.outbox.push(Event::Use {
                    occ,
                    cell: cell(q),
                    act,
                })?;
                m.operands.push(Entry { occ, value })?;
            }
        }
        k += 1;
        left -= 1;
    }
    m.point = next;
    Ok(Outcome::Next)
}

// It gives the values of its cells.
fn take_cells(
    m: &mut Machine,
    occ: u32,
    count: u32,
    next: u32,
    place: Value,
) -> Result<Outcome, Memory>
    ensures { IfOk result (λ r. left r m.new ≡ told m.old (step.take_from occ (Gives.Cells count) next m.old.frame m.old.operands m.old.callers place m.old.state)) }
{
    match reach(&m.state, occ, count, place)? {
        Err(stop) => Ok(Outcome::Stopped(stop)),
        Ok(Value::Points(p)) => read_cells(m, occ, count, next, p),
        Ok(Value::Unwritten | Value::Int(_) | Value::Null | Value::Function(_)) => Ok(
            Outcome::Stopped(Stop::Lost),
        ),
    }
}

// What an lvalue gives that designates what the value points to.
fn take(m: &mut Machine, occ: u32, gives: Gives, next: u32, place: Value) -> Result<Outcome, Memory>
    ensures { IfOk result (λ r. left r m.new ≡ told m.old (step.take_from occ gives next m.old.frame m.old.operands m.old.callers place m.old.state)) }
{
    match gives {
        Gives::Place => {
            m.operands.push(Entry { occ, value: place })?;
            m.point = next;
            Ok(Outcome::Next)
        }
        Gives::Value => take_value(m, occ, next, place),
        Gives::Both => {
            m.operands.push(Entry { occ, value: place })?;
            take_value(m, occ, next, place)
        }
        Gives::Array { length, cells } => take_array(m, occ, length, cells, next, place),
        Gives::Cells { count } => take_cells(m, occ, count, next, place),
    }
}

/// A name or a string literal.
pub fn name(
    m: &mut Machine,
    occ: u32,
    object: Named,
    gives: Gives,
    next: u32,
) -> Result<Outcome, Memory>
    ensures { IfOk result (λ r. left r m.new ≡ told m.old (step.name occ object gives next m.old.frame m.old.operands m.old.callers m.old.state)) }
{
    match object {
        Named::Static(p) => take(m, occ, gives, next, Value::Points(p)),
        Named::Local(name) => match m.state.names.get(m.frame.base as usize + name as usize) {
            None => Ok(Outcome::Stopped(Stop::Lost)),
            Some(place) => take(m, occ, gives, next, place),
        },
    }
}

/// `*e`.
pub fn target(m: &mut Machine, occ: u32, gives: Gives, next: u32) -> Result<Outcome, Memory>
    ensures { IfOk result (λ r. left r m.new ≡ told m.old (step.target occ gives next m.old.frame (rest m.old.operands) m.old.callers (first m.old.operands) m.old.state)) }
{
    match m.operands.pop() {
        None => Ok(Outcome::Stopped(Stop::Lost)),
        Some(entry) => take(m, occ, gives, next, entry.value),
    }
}

/// `e[i]`.
pub fn element(m: &mut Machine, occ: u32, gives: Gives, next: u32) -> Result<Outcome, Memory>
    ensures { IfOk result (λ r. left r m.new ≡ told m.old (step.element occ gives next m.old.frame (rest m.old.operands) m.old.callers (first m.old.operands) m.old.state)) }
{
    let Some(right) = m.operands.pop() else {
        return Ok(Outcome::Stopped(Stop::Lost));
    };
    let Some(left) = m.operands.pop() else {
        return Ok(Outcome::Stopped(Stop::Lost));
    };
    match plus(&m.state, occ, left.value, right.value) {
        Err(stop) => Ok(Outcome::Stopped(stop)),
        Ok(place) => take(m, occ, gives, next, place),
    }
}

/// `e.m` or `e->m`.
pub fn member(
    m: &mut Machine,
    occ: u32,
    lvalue: u32,
    cells: u32,
    offset: u32,
    gives: Gives,
    next: u32,
) -> Result<Outcome, Memory>
    ensures { IfOk result (λ r. left r m.new ≡ told m.old (step.member occ lvalue cells offset gives next m.old.frame (rest m.old.operands) m.old.callers (first m.old.operands) m.old.state)) }
{
    match m.operands.pop() {
        None => Ok(Outcome::Stopped(Stop::Lost)),
        Some(entry) => match inner(lvalue, cells, offset, 1, entry.value)? {
            Err(stop) => Ok(Outcome::Stopped(stop)),
            Ok(place) => take(m, occ, gives, next, place),
        },
    }
}
