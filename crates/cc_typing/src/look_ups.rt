// What is known of a node, by its number.
ghost use Rattle.std.specs.Prelude.{◌≡◌};
ghost use Rattle.cc_typing.specs.LookUps as spec;

use cc_symbols::{Declared, Form, Symbols};
use cc_types::{ExprType, Shape, TypeId};

/// The declaration that the node of this number names.
pub fn declaration_at(symbols: &Symbols, number: u32) -> Option<Declared>
    ensures { result ≡ spec.declaration_at symbols.now number }
{
    match symbols.names.get(number) {
        Some(Some(declaration)) => symbols.declared.get(declaration),
        _ => None,
    }
}

/// The type of the type name of this number.
pub fn kind_at(symbols: &Symbols, number: u32) -> Option<TypeId>
    ensures { result ≡ spec.kind_at symbols.now number }
{
    match symbols.kinds.get(number) {
        Some(kind) => kind,
        None => None,
    }
}

// The same as the type of an expression.
pub(crate) fn type_at(symbols: &Symbols, number: u32) -> Option<ExprType>
    ensures { result ≡ spec.type_at symbols.now number }
{
    match kind_at(symbols, number) {
        Some(id) => Some(ExprType::Plain(symbols.types.shape(id))),
        None => None,
    }
}

// Whether the node of this number names an object.
pub(crate) fn names_object(symbols: &Symbols, number: u32) -> bool
    ensures { result ≡ spec.names_object symbols.now number }
{
    match declaration_at(symbols, number) {
        Some(declared) => matches!(declared.form, Form::Object(_)),
        None => false,
    }
}

// Whether the type name of this number is `void *`, or a typedef name of that type.
pub(crate) fn is_void_pointer(symbols: &Symbols, number: u32) -> bool
    ensures { result ≡ spec.is_void_pointer symbols.now number }
{
    match kind_at(symbols, number) {
        Some(id) => points_to_void(symbols, symbols.types.shape(id)),
        None => false,
    }
}

fn points_to_void(symbols: &Symbols, a: Shape) -> bool
    ensures { result ≡ spec.points_to_void symbols.now a }
{
    match a {
        Shape::Pointer(is_const, id) => !is_const && is_bare_void(symbols.types.shape(id)),
        _ => false,
    }
}

fn is_bare_void(a: Shape) -> bool
    ensures { result ≡ spec.is_bare_void a }
{
    match a {
        Shape::Void(is_const) => !is_const,
        _ => false,
    }
}
