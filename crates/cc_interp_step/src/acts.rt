// The acts on values.
ghost use Rattle.std.specs.Prelude.{◌≡◌, IfOk, pos};
ghost use Rattle.cc_store.specs.Stacks.{first, rest};
ghost use Rattle.cc_store.specs.declared.value.Value.{Value};
ghost use Rattle.cc_acts.specs.Steps as step;
ghost use Rattle.cc_interp_step.specs.Progress.{left, told};

use crate::machine::{Machine, Outcome};
use crate::values::{change, is_true, of_truth, operate, operate_unary};
use cc_acts::{Acts, Case, Conversion, Entry, Operator, Stop};
use cc_arith::{IntKind, IntUnary, convert as converted};
use cc_base::Memory;
use cc_store::Value;

/// The node has this value, and the next point comes.
pub fn push(m: &mut Machine, occ: u32, next: u32, value: Value) -> Result<Outcome, Memory>
    ensures { IfOk result (λ r. left r m.new ≡ told m.old (step.push occ next m.old.frame m.old.operands m.old.callers value m.old.state)) }
{
    m.operands.push(Entry { occ, value })?;
    m.point = next;
    Ok(Outcome::Next)
}

/// The value of a part is this node's too.
pub fn hand(m: &mut Machine, occ: u32, next: u32) -> Result<Outcome, Memory>
    ensures { IfOk result (λ r. left r m.new ≡ told m.old (step.hand occ next m.old.frame (rest m.old.operands) m.old.callers (first m.old.operands) m.old.state)) }
{
    match m.operands.pop() {
        None => Ok(Outcome::Stopped(Stop::Lost)),
        Some(entry) => push(m, occ, next, entry.value),
    }
}

/// The value as one of another type.
pub fn convert(m: &mut Machine, occ: u32, to: Conversion, next: u32) -> Result<Outcome, Memory>
    ensures { IfOk result (λ r. left r m.new ≡ told m.old (step.convert_to occ to next m.old.frame (rest m.old.operands) m.old.callers (first m.old.operands) m.old.state)) }
{
    match m.operands.pop() {
        None => Ok(Outcome::Stopped(Stop::Lost)),
        Some(entry) => match change(to, entry.value) {
            None => Ok(Outcome::Stopped(Stop::Lost)),
            Some(value) => push(m, occ, next, value),
        },
    }
}

/// `+`, `-`, `~`.
pub fn unary(
    m: &mut Machine,
    occ: u32,
    op: IntUnary,
    kind: IntKind,
    next: u32,
) -> Result<Outcome, Memory>
    ensures { IfOk result (λ r. left r m.new ≡ told m.old (step.unary_on occ op kind next m.old.frame (rest m.old.operands) m.old.callers (first m.old.operands) m.old.state)) }
{
    match m.operands.pop() {
        None => Ok(Outcome::Stopped(Stop::Lost)),
        Some(entry) => match operate_unary(occ, op, kind, entry.value) {
            Err(stop) => Ok(Outcome::Stopped(stop)),
            Ok(value) => push(m, occ, next, value),
        },
    }
}

// The truth, or its negation.
fn turned(is_negated: bool, truth: bool) -> bool
    ensures { result ≡ step.turned is_negated truth }
{
    if is_negated { !truth } else { truth }
}

/// Whether the value counts as true, or does not.
pub fn truth(m: &mut Machine, occ: u32, is_negated: bool, next: u32) -> Result<Outcome, Memory>
    ensures { IfOk result (λ r. left r m.new ≡ told m.old (step.truth_on occ is_negated next m.old.frame (rest m.old.operands) m.old.callers (first m.old.operands) m.old.state)) }
{
    match m.operands.pop() {
        None => Ok(Outcome::Stopped(Stop::Lost)),
        Some(entry) => match is_true(entry.value) {
            None => Ok(Outcome::Stopped(Stop::Lost)),
            Some(truth) => push(m, occ, next, of_truth(turned(is_negated, truth))),
        },
    }
}

/// An operator on two values.
pub fn binary(m: &mut Machine, occ: u32, operator: Operator, next: u32) -> Result<Outcome, Memory>
    ensures { IfOk result (λ r. left r m.new ≡ told m.old (step.binary occ operator next m.old.frame (rest m.old.operands) m.old.callers (first m.old.operands) m.old.state)) }
{
    let Some(right) = m.operands.pop() else {
        return Ok(Outcome::Stopped(Stop::Lost));
    };
    let Some(left) = m.operands.pop() else {
        return Ok(Outcome::Stopped(Stop::Lost));
    };
    match operate(&m.state, occ, operator, left.value, right.value) {
        Err(stop) => Ok(Outcome::Stopped(stop)),
        Ok(value) => push(m, occ, next, value),
    }
}

/// Goes by the truth of the value.
pub fn branch(m: &mut Machine, one: u32, other: u32) -> Outcome
    ensures { left result m.new ≡ told m.old (step.branch one other m.old.frame (rest m.old.operands) m.old.callers (first m.old.operands) m.old.state) }
{
    match m.operands.pop() {
        None => Outcome::Stopped(Stop::Lost),
        Some(entry) => match is_true(entry.value) {
            None => Outcome::Stopped(Stop::Lost),
            Some(true) => {
                m.point = one;
                Outcome::Next
            }
            Some(false) => {
                m.point = other;
                Outcome::Next
            }
        },
    }
}

fn same_truth(when: bool, truth: bool) -> bool
    ensures { result ≡ step.same_truth when truth }
{
    if when { truth } else { !truth }
}

/// The left side of `&&` or `||`.
pub fn shortcut(
    m: &mut Machine,
    occ: u32,
    when: bool,
    right: u32,
    next: u32,
) -> Result<Outcome, Memory>
    ensures { IfOk result (λ r. left r m.new ≡ told m.old (step.shortcut occ when right next m.old.frame (rest m.old.operands) m.old.callers (first m.old.operands) m.old.state)) }
{
    match m.operands.pop() {
        None => Ok(Outcome::Stopped(Stop::Lost)),
        Some(entry) => match is_true(entry.value) {
            None => Ok(Outcome::Stopped(Stop::Lost)),
            Some(truth) => {
                if same_truth(when, truth) {
                    return push(m, occ, next, of_truth(when));
                }
                m.point = right;
                Ok(Outcome::Next)
            }
        },
    }
}

// The point of the first case with the value, or else the other.
fn chosen(z: i128, other: u32, cases: &[Case]) -> u32
    ensures { result ≡ step.chosen z other cases.now }
{
    for case in cases {
        if case.value == z {
            return case.point;
        }
    }
    other
}

/// A switch.
pub fn select(
    m: &mut Machine,
    acts: &Acts,
    kind: IntKind,
    from: u32,
    count: u32,
    other: u32,
) -> Outcome
    ensures { left result m.new ≡ told m.old (step.select acts.now kind from count other m.old.frame (rest m.old.operands) m.old.callers (first m.old.operands) m.old.state) }
{
    match m.operands.pop() {
        None => Outcome::Stopped(Stop::Lost),
        Some(entry) => match entry.value {
            Value::Int(z) => {
                let cases = acts.cases.part(from as usize, count as usize);
                m.point = chosen(converted(kind, z), other, cases);
                Outcome::Next
            }
            Value::Unwritten | Value::Null | Value::Function(_) | Value::Points(_) =>
                Outcome::Stopped(Stop::Lost),
        },
    }
}
