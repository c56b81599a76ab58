// Entries and functions of the environment.
ghost use Rattle.std.specs.Prelude.{◌≡◌};
ghost use Rattle.cc_types.specs.Shapes.{built, type_at, types_of};
ghost use Rattle.cc_link_rules.specs.Callable as spec;

use crate::fault::{Names, broken_if, next};
use crate::linked::{Linked, Links};
use crate::rule;
use cc_base::{List, Text};
use cc_types::{Shape, TypeId, TypeTable};

/// A name of the project file that breaks a rule.
#[derive(Clone, Copy)]
pub struct NameFault {
    pub list: Names,
    pub index: u32,
    pub rule: u8,
}

// Whether a type is an integer type.
fn is_integer(types: &TypeTable, kind: TypeId) -> bool
    ensures { result ≡ spec.is_integer (type_at (types_of types.now) kind) }
{
    matches!(types.shape(kind), Shape::Integer(_, _))
}

// Whether a type is an integer type or void.
fn is_value(types: &TypeTable, kind: TypeId) -> bool
    ensures { result ≡ spec.is_value (type_at (types_of types.now) kind) }
{
    matches!(types.shape(kind), Shape::Integer(_, _) | Shape::Void(_))
}

// Whether a function without parameters gives an integer or nothing.
fn gives_value(types: &TypeTable, shape: Shape) -> bool
    ensures { result ≡ spec.gives_value (built (types_of types.now) shape) }
{
    match shape {
        Shape::Function(value) => is_value(types, value),
        _ => false,
    }
}

/// Whether a function type takes integers and gives an integer or nothing.
pub fn takes_numbers(types: &TypeTable, kind: TypeId) -> bool
    ensures { result ≡ spec.takes_numbers (type_at (types_of types.now) kind) }
{
    let mut shape = types.shape(kind);
    let mut is_fine = true;
    while let Shape::Takes(parameter, rest) = shape {
        is_fine = is_fine && is_integer(types, parameter);
        shape = types.shape(rest);
    }
    is_fine && gives_value(types, shape)
}

// K6 and K7 at an entry of which this is known.
fn entry_rule(types: &TypeTable, linked: Option<Linked>) -> Option<u8>
    ensures { result ≡ spec.entry_rule (types_of types.now) linked }
{
    match linked {
        Some(linked) if linked.is_function && linked.definition.is_some() => broken_if(
            !takes_numbers(types, linked.kind),
            rule::ENTRY_TYPE,
        ),
        _ => Some(rule::ENTRY),
    }
}

// K8 at a name of the environment's of which this is known.
fn environment_rule(types: &TypeTable, linked: Option<Linked>) -> Option<u8>
    ensures { result ≡ spec.environment_rule (types_of types.now) linked }
{
    match linked {
        Some(linked) if linked.is_function && linked.definition.is_none() => broken_if(
            !takes_numbers(types, linked.kind),
            rule::ENVIRONMENT,
        ),
        _ => Some(rule::ENVIRONMENT),
    }
}

// The rule that a name of this list breaks.
fn rule_of(types: &TypeTable, list: Names, linked: Option<Linked>) -> Option<u8>
    ensures { result ≡ spec.rule_of (types_of types.now) list linked }
{
    match list {
        Names::Entries => entry_rule(types, linked),
        Names::Environment => environment_rule(types, linked),
    }
}

// The first fault, where a name may break a rule.
fn first_fault(
    before: Option<NameFault>,
    list: Names,
    index: u32,
    broken: Option<u8>,
) -> Option<NameFault>
    ensures { result ≡ spec.first_fault before list index broken }
{
    match (before, broken) {
        (None, Some(rule)) => Some(NameFault { list, index, rule }),
        (before, _) => before,
    }
}

// The names of a list.
fn check_names(
    links: &Links,
    types: &TypeTable,
    before: Option<NameFault>,
    list: Names,
    names: &List<Text>,
) -> Option<NameFault>
    ensures { result ≡ spec.names_checked links.now (types_of types.now) list 0 names.now before }
{
    let mut first = before;
    let mut index = 0;
    for name in names.as_slice() {
        let broken = rule_of(types, list, links.find(name.as_str()));
        first = first_fault(first, list, index, broken);
        index = next(index);
    }
    first
}

/// The first name of the entries, then of the environment, that breaks one of K6 to K8.
pub fn check_all_names(
    links: &Links,
    types: &TypeTable,
    entries: &List<Text>,
    environment: &List<Text>,
) -> Option<NameFault>
    ensures { result ≡ spec.all_checked links.now (types_of types.now) entries.now environment.now }
{
    let first = check_names(links, types, None, Names::Entries, entries);
    check_names(links, types, first, Names::Environment, environment)
}
