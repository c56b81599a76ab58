// The slots that an lvalue may have, at a point.
ghost use Rattle.std.specs.Prelude.{◌≡◌, ◌+◌, ◌<◌, ◌^◌, drop, take, length, OnOk};
ghost use Rattle.cc_parts.specs.PartTables as tables;
ghost use Rattle.cc_uses.specs.Putting.{put_from};
ghost use Rattle.cc_uses.specs.Accessing as spec;

use cc_base::Memory;
use cc_facts::Facts;
use cc_graph::Point;
use cc_listed::Access;
use cc_parts::{Form, Part};
use cc_types::{ExprType, Shape};

/// Which slots an lvalue may have, by the parts that it may have.
#[derive(Clone, Copy)]
pub enum Reach {
    /// Of scalar type: the part.
    Itself,
    /// Of struct type: all slots that the part is made of.
    Inner,
}

/// Which slots an lvalue of this type may have; none where the type is neither scalar nor a struct.
pub(crate) fn reach_of(t: Option<ExprType>) -> Option<Reach>
    ensures { result ≡ spec.reach_of t }
{
    match t {
        Some(ExprType::Address(_))
        | Some(ExprType::Plain(Shape::Pointer(_, _)))
        | Some(ExprType::Plain(Shape::Integer(_, _))) => Some(Reach::Itself),
        Some(ExprType::Plain(Shape::Struct(_, _))) => Some(Reach::Inner),
        _ => None,
    }
}

// How many parts, from a part on, it is about.
fn reached(reach: Reach, part: Part) -> u32
    ensures { result ≡ spec.reached reach part }
{
    match reach {
        Reach::Itself => 1,
        Reach::Inner => part.size,
    }
}

fn is_scalar(form: Form) -> bool
    ensures { result ≡ tables.is_scalar form }
{
    matches!(form, Form::Number | Form::Pointer)
}

fn put_slot(out: &mut Vec<Access>, access: Access, form: Form) -> Result<(), Memory>
    ensures { OnOk result (out.new.items ≡ spec.with_slot access form out.old.items) }
{
    if is_scalar(form) {
        out.push(access)?;
    }
    Ok(())
}

// Puts the slots among these parts, the first of which has the number `first`.
fn put_slots(
    out: &mut Vec<Access>,
    point: Point,
    occurrence: u32,
    parts: &[Part],
    first: u32,
) -> Result<(), Memory>
    requires { first + length parts.now < 2 ^ 32 }
    ensures { OnOk result (out.new.items ≡ put_from (spec.put_slot point occurrence) parts.now first out.old.items) }
{
    let mut slot = first;
    for part in parts {
        put_slot(
            out,
            Access {
                point,
                slot,
                occurrence,
            },
            part.form,
        )?;
        slot += 1;
    }
    Ok(())
}

// The parts from a number on.
fn parts_from(parts: &[Part], q: u32) -> &[Part]
    ensures { result.now ≡ drop q parts.now }
{
    if (q as usize) < parts.len() {
        &parts[q as usize..]
    } else {
        &[]
    }
}

// So many of them.
fn first_of(parts: &[Part], count: u32) -> &[Part]
    ensures { result.now ≡ take count parts.now }
{
    if (count as usize) < parts.len() {
        &parts[..count as usize]
    } else {
        parts
    }
}

/// Puts the slots that an lvalue has by its part `q`.
pub(crate) fn put_part(
    out: &mut Vec<Access>,
    parts: &[Part],
    reach: Reach,
    point: Point,
    occurrence: u32,
    q: u32,
) -> Result<(), Memory>
    requires { length parts.now < 2 ^ 32 }
    ensures { OnOk result (out.new.items ≡ spec.with_part reach point occurrence (drop q parts.now) q out.old.items) }
{
    let from = parts_from(parts, q);
    match from.first() {
        Some(part) => put_slots(
            out,
            point,
            occurrence,
            first_of(from, reached(reach, *part)),
            q,
        ),
        None => Ok(()),
    }
}

// The least part of an lvalue from a number on.
fn next_part(facts: &Facts, count: u32, l: u32, from: u32) -> Option<u32>
    ensures { spec.IsNextPart facts.now count l from result }
{
    match facts.next_part(l, from) {
        Some(q) => { if q < count { Some(q) } else { None } }
        None => None,
    }
}

// Puts the slots that an lvalue has by its parts.
fn put_parts(
    out: &mut Vec<Access>,
    facts: &Facts,
    reach: Reach,
    point: Point,
    l: u32,
) -> Result<(), Memory>
    ensures { OnOk result (out.new.items
        ≡ spec.with_parts facts.now reach point l facts.now.parts.parts 0 out.old.items) }
{
    let count = facts.parts().parts.count()?;
    let parts = facts.parts().parts.as_slice();
    let mut from = 0;
    while let Some(q) = next_part(facts, count, l, from) {
        put_part(out, parts, reach, point, l, q)?;
        from = q + 1;
    }
    Ok(())
}

/// Puts the slots that the lvalue `l` may have, at a point, if there is one.
pub(crate) fn put_lvalue(
    out: &mut Vec<Access>,
    facts: &Facts,
    reach: Option<Reach>,
    point: Option<Point>,
    l: u32,
) -> Result<(), Memory>
    ensures { OnOk result (out.new.items ≡ spec.with_lvalue facts.now reach point l out.old.items) }
{
    match (reach, point) {
        (Some(reach), Some(point)) => put_parts(out, facts, reach, point, l),
        _ => Ok(()),
    }
}
