// One step.
ghost use Rattle.std.specs.Prelude.{◌≡◌, IfOk, slice_get};
ghost use Rattle.cc_store.specs.Stacks.{rest};
ghost use Rattle.cc_acts.specs.Parts.{takes_turn};
ghost use Rattle.cc_acts.specs.Steps as step;
ghost use Rattle.cc_interp_step.specs.Progress.{left, told};

use crate::acts::{binary, branch, convert, hand, push, select, shortcut, truth, unary};
use crate::assignments::{copy, step_by_one, store, update};
use crate::calls::{ask, call, enter, leave, return_value};
use crate::machine::{Machine, Outcome};
use crate::objects::{drop_objects, fill, init, make};
use crate::places::{element, member, name, target};
use cc_acts::{Act, Acts, Entry, Node, Stop};
use cc_base::Memory;
use cc_store::Value;

fn skip(m: &mut Machine, next: u32) -> Outcome
    ensures { left result m.new ≡ told m.old (step.goes next m.old.frame m.old.operands m.old.callers m.old.state) }
{
    m.point = next;
    Outcome::Next
}

fn forget(m: &mut Machine, next: u32) -> Outcome
    ensures { left result m.new ≡ told m.old (step.goes next m.old.frame (rest m.old.operands) m.old.callers m.old.state) }
{
    let _value = m.operands.pop();
    m.point = next;
    Outcome::Next
}

fn return_none(m: &mut Machine, occ: u32, next: u32) -> Outcome
    ensures { left result m.new ≡ told m.old (step.return_none occ next m.old.frame m.old.operands m.old.callers m.old.state) }
{
    m.frame.returned = Some(Entry {
        occ,
        value: Value::Unwritten,
    });
    m.point = next;
    Outcome::Next
}

// One act.
fn perform(m: &mut Machine, acts: &Acts, act: Act) -> Result<Outcome, Memory>
    ensures { IfOk result (λ r. left r m.new ≡ told m.old (step.act_by acts.now act m.old.frame m.old.operands m.old.callers m.old.state)) }
{
    match act {
        Act::Skip { next } => Ok(skip(m, next)),
        Act::Constant { occ, value, next } => push(m, occ, next, value),
        Act::Hand { occ, next } => hand(m, occ, next),
        Act::Name {
            occ,
            object,
            gives,
            next,
        } => name(m, occ, object, gives, next),
        Act::Target { occ, gives, next } => target(m, occ, gives, next),
        Act::Element { occ, gives, next } => element(m, occ, gives, next),
        Act::Member {
            occ,
            lvalue,
            cells,
            offset,
            gives,
            next,
        } => member(m, occ, lvalue, cells, offset, gives, next),
        Act::Forget { next } => Ok(forget(m, next)),
        Act::Convert { occ, to, next } => convert(m, occ, to, next),
        Act::Unary {
            occ,
            op,
            kind,
            next,
        } => unary(m, occ, op, kind, next),
        Act::Truth {
            occ,
            is_negated,
            next,
        } => truth(m, occ, is_negated, next),
        Act::Binary {
            occ,
            operator,
            next,
        } => binary(m, occ, operator, next),
        Act::Store {
            lvalue,
            occ,
            to,
            next,
        } => store(m, lvalue, occ, to, next),
        Act::Copy {
            lvalue,
            occ,
            count,
            next,
        } => copy(m, lvalue, occ, count, next),
        Act::Update {
            lvalue,
            occ,
            operator,
            to,
            next,
        } => update(m, lvalue, occ, operator, to, next),
        Act::Step {
            lvalue,
            occ,
            operator,
            to,
            is_after,
            next,
        } => step_by_one(m, lvalue, occ, operator, to, is_after, next),
        Act::Branch { yes, no } => Ok(branch(m, yes, no)),
        Act::Shortcut {
            occ,
            when,
            right,
            next,
        } => shortcut(m, occ, when, right, next),
        Act::Select {
            kind,
            from,
            count,
            other,
        } => Ok(select(m, acts, kind, from, count, other)),
        Act::Call {
            occ,
            count,
            is_used,
            next,
        } => call(m, acts, occ, count, is_used, next),
        Act::Ask {
            occ,
            callee,
            count,
            result,
            next,
        } => ask(m, occ, callee, count, result, next),
        Act::Enter {
            callee,
            from,
            formals,
            names,
            next,
        } => enter(m, acts, callee, from, formals, names, next),
        Act::Leave { names } => leave(m, names),
        Act::Return { occ, to, next } => Ok(return_value(m, occ, to, next)),
        Act::ReturnNone { occ, next } => Ok(return_none(m, occ, next)),
        Act::Make {
            declarator,
            cells,
            name,
            next,
        } => make(m, declarator, cells, name, next),
        Act::Init {
            declarator,
            name,
            to,
            next,
        } => init(m, declarator, name, to, next),
        Act::Fill {
            declarator,
            name,
            from,
            fillers,
            count,
            next,
        } => fill(m, acts, declarator, name, from, fillers, count, next),
        Act::Drop { from, count, next } => drop_objects(m, from, count, next),
    }
}

// What is done at a point that takes a turn.
fn perform_turn(m: &mut Machine, acts: &Acts, act: Act) -> Result<Outcome, Memory>
    ensures { IfOk result (λ r. left r m.new ≡ told m.old (takes_turn (step.act_by acts.now act m.old.frame m.old.operands m.old.callers) m.old.state)) }
{
    if m.state.turns == 0 {
        return Ok(Outcome::Stopped(Stop::TurnsOut));
    }
    m.state.turns -= 1;
    perform(m, acts, act)
}

/// One step: what is done at the machine's point.
pub fn step(m: &mut Machine, acts: &Acts) -> Result<Outcome, Memory>
    ensures does { IfOk result (λ r. left r m.new ≡ told m.old (step.step_by acts.now (slice_get acts.now.nodes m.old.point) m.old.frame m.old.operands m.old.callers m.old.state)) }
{
    match acts.nodes.get(m.point as usize) {
        None => Ok(Outcome::Stopped(Stop::Lost)),
        Some(
            Node {
                takes_turn: true,
                act,
            },
        ) => perform_turn(m, acts, act),
        Some(
            Node {
                takes_turn: false,
                act,
            },
        ) => perform(m, acts, act),
    }
}
