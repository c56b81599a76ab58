// What comes before a test's first call, and before each.
ghost use Rattle.std.specs.Prelude.{◌≡◌, [], None, Some, IfOk, OnOk};
ghost use Rattle.cc_interp.specs.Tests as spec;
ghost use Rattle.cc_interp_step.specs.Progress.{behind, config_of, done};

use cc_acts::{Acts, Entry, Frame, Lasting, State, Stop};
use cc_base::Memory;
use cc_interp_step::{Machine, fill_all, has_room};
use cc_meaning::{Event, TestCall};
use cc_store::{Pointer, Row, Stack, Store, Value};
use std::alloc::Global;

// The answers, the first one on top.
fn stacked(alloc: Global, answers: &[i64]) -> Result<Stack<i64>, Memory>
    ensures { IfOk result (λ stack. stack ≡ answers.now) }
{
    let mut stack = Stack::new(alloc);
    let mut left = answers.len();
    while left > 0 {
        left -= 1;
        stack.push(answers[left])?;
    }
    Ok(stack)
}

/// The state before a run.
pub fn fresh(alloc: Global, turns: u32, cells: u32, answers: &[i64]) -> Result<State, Memory>
    ensures { IfOk result (λ state. state ≡ spec.fresh turns cells answers.now) }
{
    let answers = stacked(alloc, answers)?;
    Ok(State {
        store: Store::new(alloc),
        names: Row::new(alloc),
        turns,
        cells,
        answers,
        next_act: 1,
    })
}

/// Makes all static objects and string literals, or stops where their cells do not suffice.
pub fn make_lasting(state: &mut State, objects: &[Lasting]) -> Result<Option<Stop>, Memory>
    ensures { IfOk result (λ r. done r state.new ≡ spec.make_lasting objects.now state.old) }
{
    for object in objects {
        if !has_room(state, object.cells) {
            return Ok(Some(Stop::CellsOut));
        }
        let _place = state
            .store
            .make(object.declarator, object.cells, object.is_fixed)?;
    }
    Ok(None)
}

fn lasting_at(object: Lasting, k: u32) -> Pointer
    ensures { result ≡ spec.lasting_at object k }
{
    Pointer {
        object: object.declarator,
        instance: u64::from(k),
        place: k,
        base: 0,
        length: 1,
        index: 0,
    }
}

/// Gives the cells of object number `k` their first values.
pub fn fill_one(
    state: &mut State,
    outbox: &mut Stack<Event>,
    acts: &Acts,
    object: Lasting,
    k: u32,
) -> Result<Option<Stop>, Memory>
    ensures { IfOk result (λ r. behind outbox.new (done r state.new) ≡ behind outbox.old (spec.fill_one acts.now k object state.old)) }
{
    let fillers = acts
        .fillers
        .part(object.from as usize, object.fillers as usize);
    fill_all(
        state,
        outbox,
        object.declarator,
        0,
        lasting_at(object, k),
        &[],
        fillers,
    )
}

// Puts the arguments over what is there.
fn push_args(operands: &mut Stack<Entry>, args: &[i64]) -> Result<(), Memory>
    ensures { OnOk result (operands.new ≡ spec.pushed args.now operands.old) }
{
    for arg in args {
        operands.push(Entry {
            occ: 0,
            value: Value::Int(i128::from(*arg)),
        })?;
    }
    Ok(())
}

/// No activation.
pub fn idle() -> Frame
    ensures { result ≡ spec.idle }
{
    Frame {
        act: 0,
        base: 0,
        returned: None,
    }
}

/// Puts the machine at the beginning of a test's call; false where the function has no entry.
pub fn begin(m: &mut Machine, acts: &Acts, call: &TestCall) -> Result<bool, Memory>
    ensures config { IfOk result (λ ok. spec.begun ok (config_of m.new) ≡ spec.begin acts.now call.now) }
    ensures state { OnOk result (m.new.state ≡ m.old.state) }
    ensures outbox { OnOk result (m.new.outbox ≡ m.old.outbox) }
{
    let Some(Some(entry)) = acts.entries.get(call.entry.0 as usize) else {
        return Ok(false);
    };
    m.operands.clear();
    m.callers.clear();
    m.operands.push(Entry {
        occ: 0,
        value: Value::Function(call.entry),
    })?;
    push_args(&mut m.operands, call.args.as_slice())?;
    m.point = entry;
    m.frame = idle();
    Ok(true)
}
