// What an initialiser tells of the length of an array.
ghost use Rattle.std.specs.Prelude.{◌≡◌};
ghost use Rattle.cc_tree.specs.Views.{view_value, values_of};
ghost use Rattle.cc_check_values.specs.Lengths as spec;

use cc_arith::IntKind;
use cc_base::Bytes;
use cc_symbols::Symbols;
use cc_tree::{Expr, Value};
use cc_tree_notes::Counted;
use cc_types::Shape;

// Whether it is a character type (C17 6.2.5, paragraph 15).
pub(crate) fn is_character(a: Shape) -> bool
    ensures { result ≡ spec.is_character a }
{
    matches!(
        a,
        Shape::Integer(_, IntKind::Char | IntKind::SChar | IntKind::UChar)
    )
}

// How many bytes string literals that stand side by side have, without the final zero.
pub(crate) fn string_length(parts: &[Bytes]) -> u64
    ensures { result ≡ spec.string_length parts.now }
{
    let mut n: u64 = 0;
    for part in parts {
        n = n.saturating_add(part.bytes().len() as u64);
    }
    n
}

// How many initialisers there are.
fn count(vs: &[Value<Counted>]) -> u64
    ensures { result ≡ spec.count (values_of vs.now) }
{
    vs.len() as u64
}

// The length that an initialiser gives an array of such elements.
fn length_of(element: Shape, v: &Value<Counted>) -> Option<u64>
    ensures { result ≡ spec.length_of element (view_value v.now) }
{
    match v {
        Value::List(_, vs, _) => Some(count(vs.as_slice())),
        Value::Expr(Expr::Str(_, parts)) => string_told(element, parts.as_slice()),
        Value::Expr(_) => None,
    }
}

fn string_told(element: Shape, parts: &[Bytes]) -> Option<u64>
    ensures { result ≡ spec.string_told element parts.now }
{
    if is_character(element) {
        Some(string_length(parts).saturating_add(1))
    } else {
        None
    }
}

/// The length that an initialiser tells an array of this shape that has none (C17 6.7.9, paragraph 22): the number of the
/// initialisers in its list, or of the characters of its string literal with the final zero.
pub fn told_length(symbols: &Symbols, a: Shape, v: &Value<Counted>) -> Option<u64>
    ensures { result ≡ spec.told_length symbols.now a (view_value v.now) }
{
    match a {
        Shape::Array(_, element, None) => length_of(symbols.types.shape(element), v),
        _ => None,
    }
}
