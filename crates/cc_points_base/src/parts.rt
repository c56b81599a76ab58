// What a target is and what it has.
ghost use Rattle.std.specs.Prelude.{◌≡◌, ◌≤◌, length, slice_get};
ghost use Rattle.cc_points_base.specs.Parts as spec;

use crate::view::{Callee, View};
use cc_arena::Span;
use cc_tree::StructId;

/// The list that stands at the span; where the span isn't in the lists, none.
pub fn part_list(lists: &[u32], span: Span) -> &[u32]
    ensures list { result.now ≡ spec.part_list lists.now span }
    ensures within { length result.now ≤ length lists.now }
{
    let start = span.start as usize;
    let end = span.end as usize;
    if start <= end && end <= lists.len() {
        &lists[start..end]
    } else {
        &[]
    }
}

fn number_at(list: &[u32], k: u32) -> Option<u32>
    ensures { result ≡ slice_get list.now k }
{
    list.get(k as usize).copied()
}

/// Whether a target is a part.
pub fn is_part(view: &View, target: u32) -> bool
    ensures { result ≡ spec.is_part view.now target }
{
    target < view.parts.count()
}

// The place of a target among the functions.
fn place_of(view: &View, target: u32) -> Option<u32>
    ensures { result ≡ spec.place_of view.now target }
{
    target.checked_sub(view.parts.count())
}

fn callee_at(view: &View, target: u32) -> Option<Callee>
    ensures { result ≡ spec.callee_of view.now target }
{
    match place_of(view, target) {
        Some(i) => view.functions.get(i),
        None => None,
    }
}

/// Whether a target is a function.
pub fn is_function(view: &View, target: u32) -> bool
    ensures { result ≡ spec.is_function view.now target }
{
    callee_at(view, target).is_some()
}

/// The number of a target that is a function with a body.
pub fn function_of(view: &View, target: u32) -> Option<u32>
    ensures { result ≡ spec.function_of view.now target }
{
    match callee_at(view, target) {
        Some(callee) => {
            if callee.is_defined {
                place_of(view, target)
            } else {
                None
            }
        }
        None => None,
    }
}

/// The slot of the k-th formal of a function.
pub fn formal_of(view: &View, target: u32, k: u32) -> Option<u32>
    ensures { result ≡ spec.formal_of view.now target k }
{
    match callee_at(view, target) {
        Some(callee) => slot_in(
            view,
            number_at(part_list(view.lists.as_slice(), callee.formals), k),
        ),
        None => None,
    }
}

fn slot_in(view: &View, part: Option<u32>) -> Option<u32>
    ensures { result ≡ spec.slot_in view.now part }
{
    match part {
        Some(q) => slot_of(view, q),
        None => None,
    }
}

/// The slot of a part of scalar type, which has the number of the part.
pub fn slot_of(view: &View, target: u32) -> Option<u32>
    ensures { result ≡ spec.slot_of view.now target }
{
    if target < view.parts.count() && view.parts.is_slot(target) {
        Some(target)
    } else {
        None
    }
}

/// The elements of a part of array type.
pub fn element_of(view: &View, target: u32) -> Option<u32>
    ensures { result ≡ spec.element_of view.now target }
{
    view.parts.element_of(target)
}

/// A member of a part of struct type, by its place in the struct.
pub fn member_of(view: &View, target: u32, m: u32) -> Option<u32>
    ensures { result ≡ spec.member_of view.now target m }
{
    view.parts.member_of(target, m)
}

/// The slot of the pointer that comes so many parts after a part of this struct type.
pub fn leaf_of(view: &View, id: u32, target: u32, w: u32) -> Option<u32>
    ensures { result ≡ spec.leaf_of view.now id target w }
{
    view.parts.pointer_in(StructId(id), target, w)
}
