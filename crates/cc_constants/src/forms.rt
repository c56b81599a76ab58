// Which expressions are integer constant expressions by their form.
ghost use Rattle.std.specs.Prelude.{◌≡◌};
ghost use Rattle.cc_tree.specs.Views.{view};
ghost use Rattle.cc_constants.specs.Forms as spec;

use cc_symbols::{Form, Symbols};
use cc_tree::{Expr, UnaryOp};
use cc_tree_notes::Counted;
use cc_tree_walks::type_note;
use cc_types::Shape;
use cc_typing::{declaration_at, kind_at};

/// Whether it is an integer constant expression by its form (C17 6.6, paragraph 6): its operands are integer and character
/// constants, enumeration constants and `sizeof`; its operators are casts to integer types, those with one or two
/// operands, and `?:`, but no assignment, step, call or comma.
pub fn is_constant(symbols: &Symbols, e: &Expr<Counted>) -> bool
    ensures { result ≡ spec.is_constant symbols.now (view e.now) }
{
    match e {
        Expr::Int(_, _, _) | Expr::Char(_, _) => true,
        Expr::SizeExpr(_, _) | Expr::SizeType(_, _) => true,
        Expr::Name(n, _) => enumerator_at(symbols, n.number).is_some(),
        Expr::Paren(_, e) => is_constant(symbols, e.get()),
        Expr::Unary(_, op, e) => is_arithmetic(*op) && is_constant(symbols, e.get()),
        Expr::Binary(_, _, a, b) => is_constant(symbols, a.get()) && is_constant(symbols, b.get()),
        Expr::Cond(_, c, a, b) => {
            is_constant(symbols, c.get())
                && is_constant(symbols, a.get())
                && is_constant(symbols, b.get())
        }
        Expr::Cast(_, t, e) => {
            is_integer_at(symbols, type_note(t.get()).number) && is_constant(symbols, e.get())
        }
        _ => false,
    }
}

// `+`, `-`, `~` and `!`.
fn is_arithmetic(op: UnaryOp) -> bool
    ensures { result ≡ spec.is_arithmetic op }
{
    matches!(op, UnaryOp::Int(_))
}

// The value of the enumeration constant that the node of this number names.
pub(crate) fn enumerator_at(symbols: &Symbols, number: u32) -> Option<i128>
    ensures { result ≡ spec.enumerator_at symbols.now number }
{
    match declaration_at(symbols, number) {
        Some(declared) => enumerator(declared.form),
        None => None,
    }
}

fn enumerator(form: Form) -> Option<i128>
    ensures { result ≡ spec.enumerator form }
{
    match form {
        Form::Constant(value) => Some(i128::from(value)),
        _ => None,
    }
}

// Whether the type name of this number is one of an integer type.
fn is_integer_at(symbols: &Symbols, number: u32) -> bool
    ensures { result ≡ spec.is_integer_at symbols.now number }
{
    match kind_at(symbols, number) {
        Some(id) => matches!(symbols.types.shape(id), Shape::Integer(_, _)),
        None => false,
    }
}
