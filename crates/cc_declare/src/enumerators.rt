// Enumeration constants (C17 6.7.2.2).
ghost use Rattle.std.specs.Prelude.{◌≡◌, IfOk};
ghost use Rattle.cc_declare.specs.Enumerating as spec;

use crate::checker::Checker;
use crate::names::Named;
use cc_arith::IntKind;
use cc_base::Memory;
use cc_symbols::{Declared, Form, Linkage, rule};
use cc_tree_notes::Counted;
use cc_types::{Shape, TypeId};
use std::alloc::Global;

/// What is known of an expression that is to be an integer constant with a value.
#[derive(Clone, Copy, Debug, PartialEq, Eq)]
pub enum ConstantValue {
    /// There is no expression.
    Missing,
    /// It has no type.
    Untyped,
    /// It has a type, but no value as a constant (C27).
    NoConstant,
    Is(i128),
}

// The value of a constant: of its expression, or the next one.
fn value_of(value: ConstantValue, next: i128) -> i128
    ensures { result ≡ spec.value_of value next }
{
    match value {
        ConstantValue::Missing => next,
        ConstantValue::Is(n) => n,
        ConstantValue::Untyped | ConstantValue::NoConstant => 0,
    }
}

// Whether `int` has this value.
fn is_int(n: i128) -> bool
    ensures { result ≡ spec.is_int n }
{
    n >= -2_147_483_648 && n <= 2_147_483_647
}

// The value that is kept: 0 in place of one that `int` doesn't have, for which there is an offence.
fn kept_value(n: i128) -> i32
    ensures { result ≡ spec.kept_value n }
{
    if n >= -2_147_483_648 && n <= 2_147_483_647 {
        n as i32
    } else {
        0
    }
}

// Whether a constant's expression, if there is one, has a type.
fn is_typed(value: ConstantValue) -> bool
    ensures { result ≡ spec.is_typed value }
{
    !matches!(value, ConstantValue::Untyped)
}

impl<'a> Checker<'a> {
    // The declaration of an enumeration constant.
    fn constant_declared(&self, note: Counted, value: i32, kind: TypeId) -> Declared
        ensures { result ≡ spec.constant_declared self.now note value kind }
    {
        Declared {
            form: Form::Constant(value),
            linkage: Linkage::Without,
            kind: Some(kind),
            node: note.number,
            file: self.file,
            is_defined: true,
        }
    }

    /// An enumeration constant (C18, C27). `place` is where its value stands: its expression, or its name. The result is the
    /// value of one that comes next without an expression.
    pub fn enumerator(
        &mut self,
        alloc: Global,
        named: Named<'a>,
        place: Counted,
        next: i128,
        value: ConstantValue,
    ) -> Result<i128, Memory>
        ensures { IfOk result (λ n. (self.new, n)
            ≡ spec.enumerated self.old named.entry.note named.entry.name.now place next value) }
    {
        let number = value_of(value, next);
        self.offend_if(!is_int(number), place, rule::CONSTANT);
        let kind = self
            .symbols
            .types
            .intern(Shape::Integer(false, IntKind::Int))?;
        let kept = kept_value(number);
        let what = self.constant_declared(named.note, kept, kind);
        self.declare(alloc, named, is_typed(value), what)?;
        Ok(kept as i128 + 1)
    }
}
