// The acts on objects.
ghost use Rattle.std.specs.Prelude.{◌≡◌, IfOk, ◌+◌, ◌<◌, ◌^◌, Some, slice_get, take, drop};
ghost use Rattle.cc_acts.specs.Parts as part;
ghost use Rattle.cc_acts.specs.Steps as step;
ghost use Rattle.cc_store.specs.declared.value.Value.{Value};
ghost use Rattle.cc_interp_step.specs.Fills.{filled_by};
ghost use Rattle.cc_interp_step.specs.Progress.{behind, done, given, left, told};

use crate::machine::{Machine, Outcome};
use crate::values::{cell, cell_on, change, undefined};
use cc_acts::{Acts, Conversion, Entry, Filler, State, Stop};
use cc_base::Memory;
use cc_meaning::Event;
use cc_store::{Pointer, Stack, Value};

/// Whether this many cells more may live.
pub fn has_room(state: &State, more: u32) -> bool
    ensures { result ≡ part.has_room more state.now }
{
    let live = state.store.live();
    let limit = state.cells as usize;
    live <= limit && more as usize <= limit - live
}

/// The object of a name is made.
pub fn make(
    m: &mut Machine,
    declarator: u32,
    cells: u32,
    name: u32,
    next: u32,
) -> Result<Outcome, Memory>
    ensures { IfOk result (λ r. left r m.new ≡ told m.old (step.made_at declarator cells name next m.old.frame m.old.operands m.old.callers m.old.state)) }
{
    if !has_room(&m.state, cells) {
        return Ok(Outcome::Stopped(Stop::CellsOut));
    }
    let p = m.state.store.make(declarator, cells, false)?;
    let name = m.frame.base as usize + name as usize;
    m.state.names.set(name, Value::Points(p));
    m.point = next;
    Ok(Outcome::Next)
}

/// The one cell of a name's object gets its first value.
pub fn init(
    m: &mut Machine,
    declarator: u32,
    name: u32,
    to: Conversion,
    next: u32,
) -> Result<Outcome, Memory>
    ensures { IfOk result (λ r. left r m.new ≡ told m.old (step.init declarator name to next m.old.frame m.old.operands m.old.callers m.old.state)) }
{
    let Some(Value::Points(p)) = m.state.names.get(m.frame.base as usize + name as usize) else {
        return Ok(Outcome::Stopped(Stop::Lost));
    };
    let Some(right) = m.operands.pop() else {
        return Ok(Outcome::Stopped(Stop::Lost));
    };
    let Some(value) = change(to, right.value) else {
        return Ok(Outcome::Stopped(Stop::Lost));
    };
    match m.state.store.put(p, value) {
        Some(kind) => Ok(Outcome::Stopped(undefined(declarator, kind))),
        None => {
            let act = m.frame.act;
            m.outbox.push(Event::Def {
                occ: declarator,
                cell: cell(p),
                act,
            })?;
            m.point = next;
            Ok(Outcome::Next)
        }
    }
}

// Gives a cell its first value.
fn fill_one(
    state: &mut State,
    outbox: &mut Stack<Event>,
    occ: u32,
    act: u64,
    p: Pointer,
    value: Value,
) -> Result<Option<Stop>, Memory>
    ensures { IfOk result (λ r. behind outbox.new (done r state.new) ≡ behind outbox.old (part.fill occ act p value state.old)) }
{
    match state.store.put(p, value) {
        Some(kind) => Ok(Some(undefined(occ, kind))),
        None => {
            outbox.push(Event::Def {
                occ,
                cell: cell(p),
                act,
            })?;
            Ok(None)
        }
    }
}

// Gives the value to this many cells from number k on.
fn fill_same(
    state: &mut State,
    outbox: &mut Stack<Event>,
    occ: u32,
    act: u64,
    p: Pointer,
    k: u32,
    count: u32,
    value: Value,
) -> Result<Option<Stop>, Memory>
    requires { p.base + k + count < 2 ^ 32 }
    ensures { IfOk result (λ r. behind outbox.new (done r state.new) ≡ behind outbox.old (part.fill_same occ act p k count value state.old)) }
{
    let mut at = k;
    let mut left = count;
    while left > 0 {
        match fill_one(state, outbox, occ, act, cell_on(p, at), value)? {
            Some(stop) => return Ok(Some(stop)),
            None => {}
        }
        at += 1;
        left -= 1;
    }
    Ok(None)
}

// Gives a cell the operand, converted, as its first value.
fn fill_operand(
    state: &mut State,
    outbox: &mut Stack<Event>,
    occ: u32,
    act: u64,
    p: Pointer,
    to: Conversion,
    operand: Option<Entry>,
) -> Result<Option<Stop>, Memory>
    ensures { IfOk result (λ r. behind outbox.new (done r state.new) ≡ behind outbox.old (part.fill_operand occ act p to operand state.old)) }
{
    match operand {
        None => Ok(Some(Stop::Lost)),
        Some(entry) => match change(to, entry.value) {
            None => Ok(Some(Stop::Lost)),
            Some(value) => fill_one(state, outbox, occ, act, p, value),
        },
    }
}

// The next cell of an object, and the next operand.
#[derive(Clone, Copy)]
pub struct Cursor {
    pub k: u32,
    pub i: usize,
}

// Does what a filler says.
fn fill_next(
    state: &mut State,
    outbox: &mut Stack<Event>,
    occ: u32,
    act: u64,
    p: Pointer,
    operands: &[Entry],
    at: Cursor,
    filler: Filler,
) -> Result<Result<Cursor, Stop>, Memory>
    ensures { IfOk result (λ r. behind outbox.new (given r state.new) ≡ behind outbox.old (filled_by occ act p operands.now at filler state.old)) }
{
    match filler {
        Filler::Cells { count, value } => {
            if count > u32::MAX - at.k || p.base > u32::MAX - at.k - count {
                return Err(Memory);
            }
            match fill_same(state, outbox, occ, act, p, at.k, count, value)? {
                Some(stop) => Ok(Err(stop)),
                None => Ok(Ok(Cursor {
                    k: at.k + count,
                    i: at.i,
                })),
            }
        }
        Filler::Operand { to } => {
            if at.k == u32::MAX || p.base > u32::MAX - at.k || at.i == usize::MAX {
                return Err(Memory);
            }
            let operand = item_at(operands, at.i);
            match fill_operand(state, outbox, occ, act, cell_on(p, at.k), to, operand)? {
                Some(stop) => Ok(Err(stop)),
                None => Ok(Ok(Cursor {
                    k: at.k + 1,
                    i: at.i + 1,
                })),
            }
        }
    }
}

/// Gives first values to the cells of the object that the pointer points to, by the fillers, which take these operands.
pub fn fill_all(
    state: &mut State,
    outbox: &mut Stack<Event>,
    occ: u32,
    act: u64,
    p: Pointer,
    operands: &[Entry],
    fillers: &[Filler],
) -> Result<Option<Stop>, Memory>
    ensures { IfOk result (λ r. behind outbox.new (done r state.new) ≡ behind outbox.old (part.fill_all occ act p operands.now 0 0 fillers.now state.old)) }
{
    let mut at = Cursor { k: 0, i: 0 };
    for filler in fillers {
        match fill_next(state, outbox, occ, act, p, operands, at, *filler)? {
            Err(stop) => return Ok(Some(stop)),
            Ok(next) => at = next,
        }
    }
    Ok(None)
}

// The cells of the object that the pointer points to get their first values.
fn fill_object(
    m: &mut Machine,
    declarator: u32,
    p: Pointer,
    fillers: &[Filler],
    count: u32,
    next: u32,
) -> Result<Outcome, Memory>
    ensures { IfOk result (λ r. left r m.new ≡ told m.old (step.filled_of fillers.now declarator count next m.old.frame m.old.operands m.old.callers (Some (Value.Points p)) m.old.state)) }
{
    let act = m.frame.act;
    let all = m.operands.as_slice();
    let operands = &all[all.len().saturating_sub(count as usize)..];
    match fill_all(
        &mut m.state,
        &mut m.outbox,
        declarator,
        act,
        p,
        operands,
        fillers,
    )? {
        Some(stop) => Ok(Outcome::Stopped(stop)),
        None => {
            m.operands.remove(count as usize);
            m.point = next;
            Ok(Outcome::Next)
        }
    }
}

/// The cells of a name's object get their first values.
pub fn fill(
    m: &mut Machine,
    acts: &Acts,
    declarator: u32,
    name: u32,
    from: u32,
    fillers: u32,
    count: u32,
    next: u32,
) -> Result<Outcome, Memory>
    ensures { IfOk result (λ r. left r m.new ≡ told m.old (step.filled acts.now declarator name from fillers count next m.old.frame m.old.operands m.old.callers m.old.state)) }
{
    let fillers = acts.fillers.part(from as usize, fillers as usize);
    match m.state.names.get(m.frame.base as usize + name as usize) {
        Some(Value::Points(p)) => fill_object(m, declarator, p, fillers, count, next),
        _ => Ok(Outcome::Stopped(Stop::Lost)),
    }
}

// The item of this number.
fn item_at(items: &[Entry], i: usize) -> Option<Entry>
    ensures { result ≡ slice_get items.now i }
{
    if i < items.len() {
        Some(items[i])
    } else {
        None
    }
}

// Ends the object of a name, if it has one.
fn end_object(
    state: &mut State,
    outbox: &mut Stack<Event>,
    name: usize,
) -> Result<Option<Stop>, Memory>
    ensures { IfOk result (λ r. behind outbox.new (done r state.new) ≡ behind outbox.old (part.end_name name state.old)) }
{
    match state.names.get(name) {
        Some(Value::Points(p)) => match state.store.last() {
            None => Ok(Some(Stop::Lost)),
            Some((_, instance)) => {
                if instance != p.instance {
                    return Ok(Some(Stop::Lost));
                }
                outbox.push(Event::Gone { instance })?;
                state.store.end();
                state.names.set(name, Value::Unwritten);
                Ok(None)
            }
        },
        Some(Value::Unwritten) => Ok(None),
        _ => Ok(Some(Stop::Lost)),
    }
}

/// Ends the objects of this many names from number base on, the last one first.
pub fn end_objects(
    state: &mut State,
    outbox: &mut Stack<Event>,
    base: usize,
    count: u32,
) -> Result<Option<Stop>, Memory>
    requires { base + count < 2 ^ 64 }
    ensures { IfOk result (λ r. behind outbox.new (done r state.new) ≡ behind outbox.old (part.end_names base count state.old)) }
{
    let mut left = count;
    while left > 0 {
        left -= 1;
        match end_object(state, outbox, base + left as usize)? {
            Some(stop) => return Ok(Some(stop)),
            None => {}
        }
    }
    Ok(None)
}

/// The objects of some names end.
pub fn drop_objects(m: &mut Machine, from: u32, count: u32, next: u32) -> Result<Outcome, Memory>
    ensures { IfOk result (λ r. left r m.new ≡ told m.old (step.ended_at from count next m.old.frame m.old.operands m.old.callers m.old.state)) }
{
    let base = m.frame.base as usize + from as usize;
    match end_objects(&mut m.state, &mut m.outbox, base, count)? {
        Some(stop) => Ok(Outcome::Stopped(stop)),
        None => {
            m.point = next;
            Ok(Outcome::Next)
        }
    }
}
