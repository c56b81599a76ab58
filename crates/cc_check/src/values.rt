// Initialisers: their expressions, and what they tell of an array.

use cc_base::Memory;
use cc_check_values::{check_value, is_typed, told_length};
use cc_declare::{Checker, is_nearest};
use cc_declare_cycle::expression;
use cc_symbols::{Form, Life};
use cc_tree::{Declarator, Value};
use cc_tree_notes::Counted;
use cc_types::{Shape, TypeId};
use std::alloc::Global;

// Takes down the names and types of an initialiser's expressions.
#[cycle(value)]
fn value<'a>(
    alloc: Global,
    checker: &mut Checker<'a>,
    v: &'a Value<Counted>,
) -> Result<(), Memory> {
    match v {
        Value::Expr(e) => {
            expression(alloc, checker, e)?;
            Ok(())
        }
        Value::List(_, vs, _) => values(alloc, checker, vs.as_slice()),
    }
}

// The same for each.
#[cycle(value)]
fn values<'a>(
    alloc: Global,
    checker: &mut Checker<'a>,
    vs: &'a [Value<Counted>],
) -> Result<(), Memory> {
    for v in vs {
        value(alloc, checker, v)?;
    }
    Ok(())
}

/// Takes down the names and types of the expressions of an initialiser, if there is one. Whether all have types.
pub fn given<'a>(
    alloc: Global,
    checker: &mut Checker<'a>,
    v: &'a Option<Value<Counted>>,
) -> Result<bool, Memory> {
    match v {
        Some(v) => {
            value(alloc, checker, v)?;
            Ok(is_typed(&checker.found, v))
        }
        None => Ok(true),
    }
}

// An array's type with this length.
fn with_length<'a>(checker: &mut Checker<'a>, kind: TypeId, n: u64) -> Result<TypeId, Memory> {
    match checker.symbols.types.shape(kind) {
        Shape::Array(is_const, element, _) => {
            let shape = Shape::Array(is_const, element, Some(n));
            let made = checker.symbols.types.intern(shape)?;
            Ok(made)
        }
        _ => Ok(kind),
    }
}

// The type of an object that begins with this.
fn completed<'a>(
    checker: &mut Checker<'a>,
    kind: TypeId,
    v: &Value<Counted>,
) -> Result<TypeId, Memory> {
    let shape = checker.symbols.types.shape(kind);
    match told_length(&checker.symbols, shape, v) {
        Some(n) => with_length(checker, kind, n),
        None => Ok(kind),
    }
}

/// The type of what a declarator declares, with the length that its initialiser tells (C17 6.7.9, paragraph 22).
pub fn completed_type<'a>(
    checker: &mut Checker<'a>,
    form: Form,
    kind: Option<TypeId>,
    v: &Option<Value<Counted>>,
) -> Result<Option<TypeId>, Memory> {
    match (form, kind, v) {
        (Form::Object(_), Some(kind), Some(v)) => {
            let whole = completed(checker, kind, v)?;
            Ok(Some(whole))
        }
        _ => Ok(kind),
    }
}

// The life of what an initialiser is for, if it is for an object or a function.
fn life_of(form: Form) -> Option<Life> {
    match form {
        Form::Object(life) => Some(life),
        Form::Function => Some(Life::Static),
        Form::Typedef | Form::Constant(_) => None,
    }
}

/// C25 to C27 and C38 of the initialiser of what has this form and type. A function may have none, that of a typedef name
/// says nothing.
pub fn check_given<'a>(
    checker: &mut Checker<'a>,
    form: Form,
    kind: Option<TypeId>,
    v: &Option<Value<Counted>>,
) {
    match (life_of(form), checker.shape_of(kind), v) {
        (Some(life), Some(shape), Some(v)) => {
            check_value(&checker.symbols, &mut checker.found, life, shape, v)
        }
        _ => {}
    }
}

/// Whether the form of a declarator nearest to its name is an array without a length.
pub fn lacks_length(d: &Declarator<Counted>) -> bool {
    match d {
        Declarator::Array(_, inner, length) => {
            length.is_none() && is_nearest(inner.get()) || lacks_length(inner.get())
        }
        Declarator::Pointer(_, _, inner)
        | Declarator::Func(_, inner, _)
        | Declarator::Paren(_, inner) => lacks_length(inner.get()),
        Declarator::Name(_, _) | Declarator::Nameless => false,
    }
}
