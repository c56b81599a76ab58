// The value that a conversion gives.

ghost use Rattle.std.specs.Prelude.{◌≡◌, ◌≢◌, ◌^◌, ℤ, pos, unsigned_abs};
ghost use Rattle.std.specs.Int.{int_rem_euclid};
ghost use Rattle.cc_arith.specs.Kinds.{width_of, IsInRange};
ghost use Rattle.cc_arith.specs.Conversions.{converted, IsSameModulo};

use crate::kind::{IntKind, range, value_count};

/// The value of `v` in kind `k`: 0 or 1 for `Bool` (C17 6.3.1.2), and else the one value of the kind that
/// equals `v` modulo 2^width (6.3.1.3). C leaves it to the implementation where a signed kind can't
/// represent `v`; here it is the same rule.
#[tactic(auto, using(crate::proofs::ConversionLaws::converted_within, crate::proofs::ConversionLaws::converted_same, crate::proofs::ConversionLaws::converted_modulo))]
pub fn convert(k: IntKind, v: i128) -> i128
    ensures value { result ≡ converted k v }
    ensures within { IsInRange k result }
    ensures same { IsInRange k v → result ≡ v }
    ensures modulo { k ≢ IntKind.Bool → IsSameModulo (width_of k) v result }
    ensures only { k ≢ IntKind.Bool → (r : ℤ) → IsInRange k r → IsSameModulo (width_of k) v r
        → r ≡ result }
{
    value_in(k, v)
}

// What `convert` gives. The other clauses of `convert` follow from this one by the laws of the definitions.
pub(crate) fn value_in(k: IntKind, v: i128) -> i128
    ensures { result ≡ converted k v }
{
    if let IntKind::Bool = k {
        return i128::from(v != 0);
    }
    let (_, greatest) = range(k);
    let rest = remainder_of(k, v);
    if rest > greatest {
        rest - value_count(k)
    } else {
        rest
    }
}

// What v leaves modulo 2^width, from 0 upward.
fn remainder_of(k: IntKind, v: i128) -> i128
    ensures { result ≡ int_rem_euclid v (pos (2 ^ width_of k)) }
{
    v.rem_euclid(value_count(k))
}
