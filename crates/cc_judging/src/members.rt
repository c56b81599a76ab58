// Members and subscripts (C17 6.5.2.1, 6.5.2.3).
ghost use Rattle.std.specs.Prelude.{◌≡◌};
ghost use Rattle.cc_judging.specs.Members as spec;

use crate::judged::{Judged, Part, or_breaks};
use cc_symbols::rule;
use cc_types::{ExprType, Shape, Structs, TypeId, TypeTable};

/// What is said of `.m` or `->m`, and the place of the member in its struct, from 0.
#[derive(Clone, Copy)]
pub struct Selection {
    pub judged: Judged,
    pub place: Option<u32>,
}

// Nothing is selected.
fn nothing(judged: Judged) -> Selection
    ensures { result ≡ spec.nothing judged }
{
    Selection {
        judged,
        place: None,
    }
}

// There is no such struct, or no such member in it.
fn no_member() -> Selection
    ensures { result ≡ spec.no_member }
{
    nothing(Judged::Breaks(rule::MEMBER, Part::Whole))
}

/// `e.m`, where e has this type: C47, at the whole.
pub fn member(table: &TypeTable, structs: &Structs, t: Option<ExprType>, name: &str) -> Selection
    ensures { result ≡ spec.member_judged table.now structs.now t name.now }
{
    match t {
        Some(ExprType::Plain(a)) => selected(table, structs, a, name),
        Some(ExprType::Address(_)) => no_member(),
        None => nothing(Judged::Untyped),
    }
}

/// `e->m`, where e has this type: C47, at the whole.
pub fn arrow(table: &TypeTable, structs: &Structs, t: Option<ExprType>, name: &str) -> Selection
    ensures { result ≡ spec.arrow_judged table.now structs.now t name.now }
{
    match t {
        Some(t) => pointed(table, structs, table.value(t), name),
        None => nothing(Judged::Untyped),
    }
}

fn pointed(table: &TypeTable, structs: &Structs, t: ExprType, name: &str) -> Selection
    ensures { result ≡ spec.pointed table.now structs.now t name.now }
{
    match table.pointee(t) {
        Some(a) => selected(table, structs, a, name),
        None => no_member(),
    }
}

// The member of this name. An incomplete struct has none.
fn selected(table: &TypeTable, structs: &Structs, a: Shape, name: &str) -> Selection
    ensures { result ≡ spec.selected table.now structs.now a name.now }
{
    match a {
        Shape::Struct(is_const, id) => found(table, is_const, structs.member(id, name)),
        _ => no_member(),
    }
}

fn found(table: &TypeTable, is_const: bool, member: Option<(usize, TypeId)>) -> Selection
    ensures { result ≡ spec.found table.now is_const member }
{
    match member {
        Some((place, id)) => at_place(table, is_const, place, id),
        None => no_member(),
    }
}

// A member of a const struct is const (C17 6.5.2.3, paragraphs 3 and 4).
fn at_place(table: &TypeTable, is_const: bool, place: usize, id: TypeId) -> Selection
    ensures { result ≡ spec.at_place table.now is_const place id }
{
    Selection {
        judged: Judged::Typed(ExprType::Plain(table.shape(id).also_const(is_const))),
        place: narrowed(place),
    }
}

// The number of a member. No struct has so many that there is none.
fn narrowed(place: usize) -> Option<u32>
    ensures { result ≡ spec.narrowed place }
{
    if place <= u32::MAX as usize {
        Some(place as u32)
    } else {
        None
    }
}

/// `a[i]`, where a and i have these types: C46, at the whole.
pub fn index(
    table: &TypeTable,
    structs: &Structs,
    s: Option<ExprType>,
    t: Option<ExprType>,
) -> Judged
    ensures { result ≡ spec.index_judged table.now structs.now s t }
{
    match (s, t) {
        (Some(s), Some(t)) => subscript(table, structs, table.value(s), table.value(t)),
        _ => Judged::Untyped,
    }
}

fn subscript(table: &TypeTable, structs: &Structs, s: ExprType, t: ExprType) -> Judged
    ensures { result ≡ spec.subscript_judged table.now structs.now s t }
{
    match table.pointee(s) {
        Some(a) => {
            let holds = structs.measure(table, a).is_complete && table.is_integer(t);
            or_breaks(holds, ExprType::Plain(a), rule::SUBSCRIPT, Part::Whole)
        }
        None => Judged::Breaks(rule::SUBSCRIPT, Part::Whole),
    }
}
