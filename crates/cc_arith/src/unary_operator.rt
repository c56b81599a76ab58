// The operators with one operand.

ghost use Rattle.std.specs.Prelude.{◌≡◌, IfOk};
ghost use Rattle.cc_arith.specs.Kinds.{IsInRange};
ghost use Rattle.cc_arith.specs.Promotions.{IsPromoted};
ghost use Rattle.cc_arith.specs.Operators.{unary_of, unary_kind_of};
ghost use Rattle.cc_arith.specs.Laws.{TruthIfNot, BitsInverted};

use crate::bits::complement;
use crate::exact::negative;
use crate::kind::IntKind;
use crate::representation::{reduced_or_checked, truth};
use crate::undefined::ArithUndef;

/// An operator of C with one operand, other than `sizeof`, casts and those on pointers (C17 6.5.3.3).
#[derive(Clone, Copy, Debug, PartialEq, Eq)]
pub enum IntUnary {
    /// `+`
    Plus,
    /// `-`
    Minus,
    /// `~`
    Invert,
    /// `!`
    Not,
}

/// What `op a` gives in the promoted kind `k`, where `a` is a value of `k` (C17 6.5.3.3). `!` gives 1 or 0,
/// an `int` whatever `k` is; the other results are values of `k`. Only `-` can be undefined.
pub fn unary(op: IntUnary, k: IntKind, a: i128) -> Result<i128, ArithUndef>
    requires kind { IsPromoted k }
    requires left { IsInRange k a }
    ensures value { result ≡ unary_of op k a }
    ensures within { IfOk result (IsInRange (unary_kind_of op k)) }
    ensures truth { IfOk result (TruthIfNot op) }
    ensures bits { IfOk result (BitsInverted op k a) }
{
    result_of(op, k, a)
}

// What `unary` gives. The other clauses of `unary` follow from this one by the laws of the definitions.
fn result_of(op: IntUnary, k: IntKind, a: i128) -> Result<i128, ArithUndef>
    requires kind { IsPromoted k }
    requires left { IsInRange k a }
    ensures value { result ≡ unary_of op k a }
{
    match op {
        IntUnary::Plus => Ok(a),
        IntUnary::Minus => reduced_or_checked(k, negative(a)),
        IntUnary::Invert => Ok(complement(k, a)),
        IntUnary::Not => Ok(truth(a == 0)),
    }
}
