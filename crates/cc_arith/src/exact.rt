// Arithmetic on `i128` with exact results, for values of 64 bits with or without a sign.

ghost use Rattle.std.specs.Prelude.{◌≡◌, ◌≢◌, ℕ, pos, negsuc, neg_ℤ, ◌-◌, ◌^◌, ◌≤ℤ◌, ◌<◌, ◌+ℤ◌, ◌-ℤ◌, ◌*ℤ◌, int_div, int_rem, FitsSigned};
ghost use Rattle.std.specs.Int.{w64, w128, int_bit_and, int_bit_or, int_bit_xor, int_div_euclid};

pub(crate) fn sum(a: i128, b: i128) -> i128
    requires a_low { negsuc (2 ^ 63 - 1) ≤ℤ a }
    requires a_high { a ≤ℤ pos (2 ^ 64 - 1) }
    requires b_low { negsuc (2 ^ 63 - 1) ≤ℤ b }
    requires b_high { b ≤ℤ pos (2 ^ 64 - 1) }
    ensures { result ≡ a +ℤ b }
{
    a + b
}

pub(crate) fn difference(a: i128, b: i128) -> i128
    requires a_low { negsuc (2 ^ 63 - 1) ≤ℤ a }
    requires a_high { a ≤ℤ pos (2 ^ 64 - 1) }
    requires b_low { negsuc (2 ^ 63 - 1) ≤ℤ b }
    requires b_high { b ≤ℤ pos (2 ^ 64 - 1) }
    ensures { result ≡ a -ℤ b }
{
    a - b
}

pub(crate) fn negative(a: i128) -> i128
    requires low { negsuc (2 ^ 63 - 1) ≤ℤ a }
    requires high { a ≤ℤ pos (2 ^ 64 - 1) }
    ensures { result ≡ neg_ℤ a }
{
    -a
}

pub(crate) fn signed_product(a: i128, b: i128) -> i128
    requires a_fits { FitsSigned w64 a }
    requires b_fits { FitsSigned w64 b }
    ensures { result ≡ a *ℤ b }
{
    a * b
}

// The product of two unsigned values of 64 bits can be above 2^127.
pub(crate) fn unsigned_product(a: i128, b: i128) -> u128
    requires a_low { pos 0 ≤ℤ a }
    requires a_high { a ≤ℤ pos (2 ^ 64 - 1) }
    requires b_low { pos 0 ≤ℤ b }
    requires b_high { b ≤ℤ pos (2 ^ 64 - 1) }
    ensures { pos result ≡ a *ℤ b }
{
    a as u128 * b as u128
}

// Toward 0.
pub(crate) fn quotient(a: i128, b: i128) -> i128
    requires low { negsuc (2 ^ 63 - 1) ≤ℤ a }
    requires high { a ≤ℤ pos (2 ^ 64 - 1) }
    requires divisor { b ≢ pos 0 }
    ensures { result ≡ int_div a b }
{
    a / b
}

// What `quotient` leaves.
pub(crate) fn remainder(a: i128, b: i128) -> i128
    requires low { negsuc (2 ^ 63 - 1) ≤ℤ a }
    requires high { a ≤ℤ pos (2 ^ 64 - 1) }
    requires divisor { b ≢ pos 0 }
    ensures { result ≡ int_rem a b }
{
    a % b
}

pub(crate) fn times_power(a: i128, count: u32) -> i128
    requires low { pos 0 ≤ℤ a }
    requires high { a ≤ℤ pos (2 ^ 64 - 1) }
    requires count { count < 64 }
    ensures { result ≡ a *ℤ pos (2 ^ count) }
{
    a << count
}

// Rounded down.
#[tactic(auto, using(crate::proofs::Shifts::shift_rounds_down))]
pub(crate) fn over_power(a: i128, count: u32) -> i128
    requires count { count < 64 }
    ensures { result ≡ int_div_euclid a (pos (2 ^ count)) }
{
    a >> count
}

pub(crate) fn bits_in_both(a: i128, b: i128) -> i128
    ensures { result ≡ int_bit_and w128 a b }
{
    a & b
}

pub(crate) fn bits_in_either(a: i128, b: i128) -> i128
    ensures { result ≡ int_bit_or w128 a b }
{
    a | b
}

pub(crate) fn bits_in_one(a: i128, b: i128) -> i128
    ensures { result ≡ int_bit_xor w128 a b }
{
    a ^ b
}

pub(crate) fn opposite_bits(a: i128) -> i128
    ensures { result ≡ negsuc 0 -ℤ a }
{
    !a
}
