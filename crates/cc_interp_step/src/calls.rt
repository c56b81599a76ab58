// The acts on calls.
ghost use Rattle.std.specs.Prelude.{◌≡◌, IfOk, OnOk, ◌∷◌, ◌+◌, ◌<◌, ◌^◌, slice_get, length};
ghost use Rattle.cc_store.specs.Objects.{next_pointer};
ghost use Rattle.cc_store.specs.Stacks.{first, rest};
ghost use Rattle.cc_acts.specs.Parts as part;
ghost use Rattle.cc_acts.specs.Runs.{Goes};
ghost use Rattle.cc_acts.specs.Steps as step;
ghost use Rattle.cc_acts.specs.declared.state.State.{State};
ghost use Rattle.cc_interp_step.specs.Progress.{behind, entered, given, left, told};

use crate::acts::push;
use crate::machine::{Machine, Outcome};
use crate::objects::{end_objects, has_room};
use crate::values::{cell, change, integer, undefined};
use cc_acts::{Acts, Caller, Conversion, Entry, Frame, State, Stop};
use cc_arith::IntKind;
use cc_base::Memory;
use cc_meaning::{Cell, Event, Undef};
use cc_program::FuncId;
use cc_store::{Row, Stack, Value};

/// A call, whose arguments lie over the designator.
pub fn call(
    m: &mut Machine,
    acts: &Acts,
    occ: u32,
    count: u32,
    is_used: bool,
    next: u32,
) -> Result<Outcome, Memory>
    ensures { IfOk result (λ r. left r m.new ≡ told m.old (step.call acts.now occ is_used next m.old.frame m.old.operands m.old.callers (slice_get m.old.operands count) m.old.state)) }
{
    let Some(designator) = m.operands.under(count as usize) else {
        return Ok(Outcome::Stopped(Stop::Lost));
    };
    match designator.value {
        Value::Function(g) => match acts.entries.get(g.0 as usize) {
            Some(Some(entry)) => {
                let frame = m.frame;
                m.callers.push(Caller {
                    site: occ,
                    is_used,
                    point: next,
                    frame,
                })?;
                m.point = entry;
                Ok(Outcome::Next)
            }
            _ => Ok(Outcome::Stopped(Stop::Lost)),
        },
        Value::Null => Ok(Outcome::Stopped(undefined(occ, Undef::NullCall))),
        Value::Unwritten | Value::Int(_) | Value::Points(_) => Ok(Outcome::Stopped(Stop::Lost)),
    }
}

// What the environment gives a call.
fn answer(
    state: &mut State,
    outbox: &mut Stack<Event>,
    occ: u32,
    callee: FuncId,
    act: u64,
    result_kind: Option<IntKind>,
) -> Result<Result<Value, Stop>, Memory>
    ensures { IfOk result (λ r. behind outbox.new (given r state.new) ≡ behind outbox.old (part.ask occ callee act result_kind state.old)) }
{
    let site = occ;
    match result_kind {
        None => {
            outbox.push(Event::Ask { site, callee, act })?;
            Ok(Ok(Value::Unwritten))
        }
        Some(kind) => match state.answers.pop() {
            None => Ok(Err(Stop::EnvDry { at: occ })),
            Some(z) => {
                outbox.push(Event::Ask { site, callee, act })?;
                Ok(Ok(integer(kind, i128::from(z))))
            }
        },
    }
}

/// A call of a function of the environment.
pub fn ask(
    m: &mut Machine,
    occ: u32,
    callee: FuncId,
    count: u32,
    result_kind: Option<IntKind>,
    next: u32,
) -> Result<Outcome, Memory>
    ensures { IfOk result (λ r. left r m.new ≡ told m.old (step.asked occ callee count result_kind next m.old.frame m.old.operands m.old.callers m.old.state)) }
{
    let act = m.frame.act;
    match answer(&mut m.state, &mut m.outbox, occ, callee, act, result_kind)? {
        Err(stop) => Ok(Outcome::Stopped(stop)),
        Ok(value) => {
            m.operands.remove(count as usize + 1);
            push(m, occ, next, value)
        }
    }
}

/// A `return` statement with its value.
pub fn return_value(m: &mut Machine, occ: u32, to: Conversion, next: u32) -> Outcome
    ensures { left result m.new ≡ told m.old (step.return_by occ to next m.old.frame (rest m.old.operands) m.old.callers (first m.old.operands) m.old.state) }
{
    match m.operands.pop() {
        None => Outcome::Stopped(Stop::Lost),
        Some(entry) => match change(to, entry.value) {
            None => Outcome::Stopped(Stop::Lost),
            Some(value) => {
                m.frame.returned = Some(Entry { occ, value });
                m.point = next;
                Outcome::Next
            }
        },
    }
}

// The event of a passed argument.
fn event_of(site: Option<u32>, declarator: u32, k: u32, cell: Cell, act: u64) -> Event
    requires { k + 1 < 2 ^ 32 }
    ensures { result ≡ part.passing site declarator k cell act }
{
    match site {
        None => Event::Def {
            occ: declarator,
            cell,
            act,
        },
        Some(site) => Event::Pass {
            site,
            k: k + 1,
            cell,
            act,
        },
    }
}

// Makes a formal's object and passes the argument to it.
fn pass_one(
    state: &mut State,
    outbox: &mut Stack<Event>,
    site: Option<u32>,
    act: u64,
    declarator: u32,
    name: usize,
    k: u32,
    value: Value,
) -> Result<(), Memory>
    requires { k + 1 < 2 ^ 32 }
    ensures event { OnOk result (outbox.new ≡ part.passing site declarator k (part.cell_of (next_pointer declarator state.old.store)) act ∷ outbox.old) }
    ensures state { OnOk result (state.new ≡ part.passed declarator name value state.old) }
{
    let p = state.store.make(declarator, 1, false)?;
    let _refused = state.store.write(p, value);
    state.names.set(name, Value::Points(p));
    outbox.push(event_of(site, declarator, k, cell(p), act))
}

// A formal's declarator; 0 past the last one.
fn declarator_by(found: Option<u32>) -> u32
    ensures { result ≡ part.declarator_by found }
{
    match found {
        None => 0,
        Some(declarator) => declarator,
    }
}

// Passes the arguments to the formals.
fn pass_args(
    state: &mut State,
    outbox: &mut Stack<Event>,
    formals: &Row<u32>,
    site: Option<u32>,
    act: u64,
    from: u32,
    base: usize,
    args: &[Entry],
) -> Result<(), Memory>
    requires declarators { length args.now < 2 ^ 32 }
    requires names { base + length args.now < 2 ^ 64 }
    ensures { OnOk result (behind outbox.new (Goes tt state.new) ≡ behind outbox.old (part.pass_all formals.now site act from base 0 args.now state.old)) }
{
    for (k, entry) in args.iter().enumerate() {
        let declarator = declarator_by(formals.get(from as usize + k));
        pass_one(
            state,
            outbox,
            site,
            act,
            declarator,
            base + k,
            k as u32,
            entry.value,
        )?;
    }
    Ok(())
}

// A new activation, with its formals; none where the cells do not suffice.
fn enter_frame(
    state: &mut State,
    outbox: &mut Stack<Event>,
    formals: &Row<u32>,
    site: Option<u32>,
    callee: FuncId,
    from: u32,
    names: u32,
    args: &[Entry],
) -> Result<Option<Frame>, Memory>
    ensures { IfOk result (λ r. behind outbox.new (entered r state.new) ≡ behind outbox.old (part.enter formals.now site callee from names args.now state.old)) }
{
    let count = args.len();
    let act = state.next_act;
    let base = state.names.len();
    if count >= u32::MAX as usize || base > u32::MAX as usize || act == u64::MAX {
        return Err(Memory);
    }
    if !has_room(state, count as u32) {
        return Ok(None);
    }
    state.names.grow(names, Value::Unwritten)?;
    state.next_act = act + 1;
    outbox.push(Event::Enter { site, callee, act })?;
    pass_args(state, outbox, formals, site, act, from, base, args)?;
    Ok(Some(Frame {
        act,
        base: base as u32,
        returned: None,
    }))
}

// The site of the call that the last caller waits for.
fn site_by(caller: Option<Caller>) -> Option<u32>
    ensures { result ≡ step.site_by caller }
{
    match caller {
        None => None,
        Some(caller) => Some(caller.site),
    }
}

/// A function is entered.
pub fn enter(
    m: &mut Machine,
    acts: &Acts,
    callee: FuncId,
    from: u32,
    formals: u32,
    names: u32,
    next: u32,
) -> Result<Outcome, Memory>
    ensures { IfOk result (λ r. left r m.new ≡ told m.old (step.enter_at acts.now callee from formals names next m.old.operands m.old.callers m.old.state)) }
{
    let site = site_by(m.callers.top());
    let all = m.operands.as_slice();
    let args = &all[all.len().saturating_sub(formals as usize)..];
    match enter_frame(
        &mut m.state,
        &mut m.outbox,
        &acts.formals,
        site,
        callee,
        from,
        names,
        args,
    )? {
        None => Ok(Outcome::Stopped(Stop::CellsOut)),
        Some(frame) => {
            m.operands.remove(formals as usize + 1);
            m.frame = frame;
            m.point = next;
            Ok(Outcome::Next)
        }
    }
}

fn return_of(entry: Option<Entry>) -> Option<u32>
    ensures { result ≡ part.return_of entry }
{
    match entry {
        None => None,
        Some(entry) => Some(entry.occ),
    }
}

// The value of a call, or why the run stops.
fn value_of(site: u32, is_used: bool, returned: Option<Entry>) -> Result<Value, Stop>
    ensures { (s : State) → given result s ≡ part.result_of site is_used returned s }
{
    match returned {
        Some(entry) => Ok(entry.value),
        None => {
            if is_used {
                Err(undefined(site, Undef::NoValue))
            } else {
                Ok(Value::Unwritten)
            }
        }
    }
}

// The activation's end, once its objects have ended.
fn finish(m: &mut Machine) -> Result<Outcome, Memory>
    ensures { IfOk result (λ r. left r m.new ≡ told m.old (step.finish m.old.frame m.old.operands m.old.callers m.old.state)) }
{
    let frame = m.frame;
    let ret = return_of(frame.returned);
    m.outbox.push(Event::Leave {
        ret,
        act: frame.act,
    })?;
    m.state.names.cut(frame.base as usize);
    match m.callers.pop() {
        None => Ok(Outcome::Back),
        Some(caller) => match value_of(caller.site, caller.is_used, frame.returned) {
            Err(stop) => Ok(Outcome::Stopped(stop)),
            Ok(value) => {
                m.frame = caller.frame;
                push(m, caller.site, caller.point, value)
            }
        },
    }
}

/// The activation ends.
pub fn leave(m: &mut Machine, names: u32) -> Result<Outcome, Memory>
    ensures { IfOk result (λ r. left r m.new ≡ told m.old (step.leave_with names m.old.frame m.old.operands m.old.callers m.old.state)) }
{
    let base = m.frame.base as usize;
    match end_objects(&mut m.state, &mut m.outbox, base, names)? {
        Some(stop) => Ok(Outcome::Stopped(stop)),
        None => finish(m),
    }
}
