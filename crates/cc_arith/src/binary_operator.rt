// The operators with two operands.

ghost use Rattle.std.specs.Prelude.{◌≡◌, IfOk};
ghost use Rattle.cc_arith.specs.Kinds.{IsInRange};
ghost use Rattle.cc_arith.specs.Promotions.{IsPromoted};
ghost use Rattle.cc_arith.specs.Operators.{binary_of, binary_kind_of, IsRightOperand};
ghost use Rattle.cc_arith.specs.Laws.{TruthIfCompared, BitsFollow};

use crate::bits::{bitwise_and, bitwise_or, bitwise_xor};
use crate::division::{divide, remain};
use crate::exact::{difference, sum};
use crate::kind::IntKind;
use crate::product::multiply;
use crate::representation::{reduced_or_checked, truth};
use crate::shift::{shift_left, shift_right};
use crate::undefined::ArithUndef;

/// An operator of C with two operands, other than `&&`, `||` and assignments.
#[derive(Clone, Copy, Debug, PartialEq, Eq)]
pub enum IntOp {
    /// `+` (C17 6.5.6).
    Add,
    /// `-` (C17 6.5.6).
    Sub,
    /// `*` (C17 6.5.5).
    Mul,
    /// `/` (C17 6.5.5), toward 0.
    Div,
    /// `%` (C17 6.5.5), with the sign of the left operand.
    Rem,
    /// `&` (C17 6.5.10).
    And,
    /// `|` (C17 6.5.12).
    Or,
    /// `^` (C17 6.5.11).
    Xor,
    /// `<<` (C17 6.5.7).
    Shl,
    /// `>>` (C17 6.5.7), rounded down.
    Shr,
    /// `<` (C17 6.5.8).
    Lt,
    /// `<=` (C17 6.5.8).
    Le,
    /// `>` (C17 6.5.8).
    Gt,
    /// `>=` (C17 6.5.8).
    Ge,
    /// `==` (C17 6.5.9).
    Eq,
    /// `!=` (C17 6.5.9).
    Ne,
}

/// What `a op b` gives in the promoted kind `k`, or what makes it undefined (C17 6.5.5 to 6.5.12).
///
/// `a` is a value of `k`, and so is `b`, except for a shift, whose count may be a value of any kind. A
/// comparison gives 1 or 0, an `int` whatever `k` is; the other results are values of `k`.
pub fn binary(op: IntOp, k: IntKind, a: i128, b: i128) -> Result<i128, ArithUndef>
    requires kind { IsPromoted k }
    requires left { IsInRange k a }
    requires right { IsRightOperand op k b }
    ensures value { result ≡ binary_of op k a b }
    ensures within { IfOk result (IsInRange (binary_kind_of op k)) }
    ensures truth { IfOk result (TruthIfCompared op) }
    ensures bits { IfOk result (BitsFollow op k a b) }
{
    result_of(op, k, a, b)
}

// What `binary` gives. The other clauses of `binary` follow from this one by the laws of the definitions.
fn result_of(op: IntOp, k: IntKind, a: i128, b: i128) -> Result<i128, ArithUndef>
    requires kind { IsPromoted k }
    requires left { IsInRange k a }
    requires right { IsRightOperand op k b }
    ensures value { result ≡ binary_of op k a b }
{
    match op {
        IntOp::Add => reduced_or_checked(k, sum(a, b)),
        IntOp::Sub => reduced_or_checked(k, difference(a, b)),
        IntOp::Mul => multiply(k, a, b),
        IntOp::Div => divide(k, a, b),
        IntOp::Rem => remain(k, a, b),
        IntOp::And => Ok(bitwise_and(k, a, b)),
        IntOp::Or => Ok(bitwise_or(k, a, b)),
        IntOp::Xor => Ok(bitwise_xor(k, a, b)),
        IntOp::Shl => shift_left(k, a, b),
        IntOp::Shr => shift_right(k, a, b),
        IntOp::Lt => Ok(truth(a < b)),
        IntOp::Le => Ok(truth(a <= b)),
        IntOp::Gt => Ok(truth(a > b)),
        IntOp::Ge => Ok(truth(a >= b)),
        IntOp::Eq => Ok(truth(a == b)),
        IntOp::Ne => Ok(truth(a != b)),
    }
}
