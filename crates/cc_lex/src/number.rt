// Integer constants.
ghost use Rattle.std.specs.Prelude.{◌≡◌, ◌≤◌, ◌<◌, ◌+◌, ◌*◌, ◌^◌, if◌then◌else◌, [], ◌∷◌, true, pos, length, option_map, unwrap_or, IfSome};
ghost use Rattle.std.specs.Option.{SomeIff};
ghost use Rattle.cc_arith.specs.Kinds.{is_in_range};
ghost use Rattle.cc_lex.specs.Bytes.{count_front};
ghost use Rattle.cc_lex.specs.Numbers as spec;
ghost use Rattle.cc_lex.specs.Reading.{first_fault, pair_of, IsSound};
ghost use Rattle.cc_lex.specs.Spellings as spellings;

use crate::byte::{back, first, front, is_digit, is_hex_digit, is_octal_digit, second};
use crate::rule::{NO_CONSTANT, NO_TYPE};
use crate::step::Fault;
use cc_arith::{IntKind, range};

/// What a number's suffix says.
#[derive(Clone, Copy)]
pub struct Suffix {
    /// Whether it has a `u`.
    pub is_unsigned: bool,
    /// How many `l` there are.
    pub longs: u8,
}

/// Whether the byte is a digit in base 8, 10 or 16.
pub fn is_digit_in(base: u8, b: u8) -> bool
    ensures { result ≡ spec.is_digit_in base b }
{
    if base == 16 {
        is_hex_digit(b)
    } else if base == 8 {
        is_octal_digit(b)
    } else {
        is_digit(b)
    }
}

/// How many digits stand at the front.
pub fn count_digits(base: u8, mut z: &[u8]) -> usize
    ensures value { result ≡ count_front (spec.is_digit_in base) z.entry.now }
    ensures within { result ≤ length z.entry.now }
{
    let mut count = 0;
    while let [b, rest @ ..] = z {
        if !is_digit_in(base, *b) {
            return count;
        }
        count += 1;
        z = rest;
    }
    count
}

fn digit_value(b: u8) -> u8
    ensures { result ≡ spec.digit_value b }
{
    if is_digit(b) {
        b.saturating_sub(48)
    } else if 97 <= b {
        b.saturating_sub(87)
    } else {
        b.saturating_sub(55)
    }
}

fn next_value(base: u8, value: u64, b: u8) -> Option<u64>
    ensures { SomeIff result (base * value + spec.digit_value b < 2 ^ 64) (base * value + spec.digit_value b) }
{
    let product = u64::from(base).checked_mul(value)?;
    product.checked_add(u64::from(digit_value(b)))
}

/// The value of the digits, if it fits.
#[tactic(auto, using(crate::proofs::Counts::value_grows))]
pub fn small_value(base: u8, mut z: &[u8]) -> Option<u64>
    requires { 1 ≤ base }
    ensures { SomeIff result (spec.value_from base 0 z.entry.now < 2 ^ 64) (spec.value_from base 0 z.entry.now) }
{
    let mut value: u64 = 0;
    while let [b, rest @ ..] = z {
        match next_value(base, value, *b) {
            None => return None,
            Some(next) => value = next,
        }
        z = rest;
    }
    Some(value)
}

fn is_hex(w: &[u8]) -> bool
    ensures { result ≡ spec.is_hex w.now }
{
    first(w) == b'0' && (second(w) == b'x' || second(w) == b'X')
}

fn base_of(w: &[u8]) -> u8
    ensures value { result ≡ spec.base_of w.now }
    ensures some { 1 ≤ result }
{
    if is_hex(w) {
        16
    } else if first(w) == b'0' {
        8
    } else {
        10
    }
}

fn behind_prefix(w: &[u8]) -> &[u8]
    ensures { result.now ≡ spec.behind_prefix w.now }
{
    if is_hex(w) { back(w, 2) } else { w }
}

fn digit_count(w: &[u8]) -> usize
    ensures { result ≡ spec.digit_count w.now }
{
    count_digits(base_of(w), behind_prefix(w))
}

fn digits_of(w: &[u8]) -> &[u8]
    ensures { result.now ≡ spec.digits_of w.now }
{
    front(behind_prefix(w), digit_count(w))
}

fn suffix_of(w: &[u8]) -> &[u8]
    ensures { result.now ≡ spec.suffix_of w.now }
{
    back(behind_prefix(w), digit_count(w))
}

fn is_u(b: u8) -> bool
    ensures { result ≡ spec.is_u b }
{
    b == b'u' || b == b'U'
}

fn is_l(b: u8) -> bool
    ensures { result ≡ spec.is_l b }
{
    b == b'l' || b == b'L'
}

fn is_ll(a: u8, b: u8) -> bool
    ensures { result ≡ spec.is_ll a b }
{
    is_l(a) && a == b
}

fn suffix_with(is_unsigned: bool, longs: u8) -> Option<Suffix>
    ensures { result ≡ spec.suffix_with is_unsigned longs }
{
    Some(Suffix { is_unsigned, longs })
}

fn one_letter(a: u8) -> Option<Suffix>
    ensures { result ≡ spec.suffix_meaning (a ∷ []) }
{
    if is_u(a) {
        suffix_with(true, 0)
    } else if is_l(a) {
        suffix_with(false, 1)
    } else {
        None
    }
}

fn two_letters(a: u8, b: u8) -> Option<Suffix>
    ensures { result ≡ spec.suffix_meaning (a ∷ b ∷ []) }
{
    if (is_u(a) && is_l(b)) || (is_l(a) && is_u(b)) {
        suffix_with(true, 1)
    } else if is_ll(a, b) {
        suffix_with(false, 2)
    } else {
        None
    }
}

fn three_letters(a: u8, b: u8, c: u8) -> Option<Suffix>
    ensures { result ≡ spec.suffix_meaning (a ∷ b ∷ c ∷ []) }
{
    if (is_u(a) && is_ll(b, c)) || (is_ll(a, b) && is_u(c)) {
        suffix_with(true, 2)
    } else {
        None
    }
}

fn suffix_meaning(z: &[u8]) -> Option<Suffix>
    ensures { result ≡ spec.suffix_meaning z.now }
{
    match z {
        [] => suffix_with(false, 0),
        [a] => one_letter(*a),
        [a, b] => two_letters(*a, *b),
        [a, b, c] => three_letters(*a, *b, *c),
        _ => None,
    }
}

fn fits(value: u64, kind: IntKind) -> bool
    ensures { result ≡ is_in_range kind (pos value) }
{
    let (least, greatest) = range(kind);
    least <= i128::from(value) && i128::from(value) <= greatest
}

/// The first type of one rank that fits.
fn fit_of_rank(
    value: u64,
    is_unsigned: bool,
    is_decimal: bool,
    signed: IntKind,
    unsigned: IntKind,
) -> Option<IntKind>
    ensures { result ≡ spec.first_fit value (spec.types_of_rank is_unsigned is_decimal signed unsigned) }
{
    if !is_unsigned && fits(value, signed) {
        Some(signed)
    } else if (is_unsigned || !is_decimal) && fits(value, unsigned) {
        Some(unsigned)
    } else {
        None
    }
}

/// The same, if the rank is asked for.
fn fit_if(
    is_asked: bool,
    value: u64,
    is_unsigned: bool,
    is_decimal: bool,
    signed: IntKind,
    unsigned: IntKind,
) -> Option<IntKind>
    ensures { result ≡ spec.first_fit value (if is_asked then spec.types_of_rank is_unsigned is_decimal signed unsigned else []) }
{
    if is_asked {
        fit_of_rank(value, is_unsigned, is_decimal, signed, unsigned)
    } else {
        None
    }
}

/// The first type that fits, for a suffix with this many `l`.
#[tactic(auto, using(crate::proofs::TypeLemmas::fit_or))]
fn first_fit(value: u64, is_unsigned: bool, is_decimal: bool, longs: u8) -> Option<IntKind>
    ensures { result ≡ spec.first_fit value (spec.types_for is_unsigned is_decimal longs) }
{
    let int = fit_if(
        longs == 0,
        value,
        is_unsigned,
        is_decimal,
        IntKind::Int,
        IntKind::UInt,
    );
    let long = fit_if(
        longs <= 1,
        value,
        is_unsigned,
        is_decimal,
        IntKind::Long,
        IntKind::ULong,
    );
    let long_long = fit_of_rank(
        value,
        is_unsigned,
        is_decimal,
        IntKind::LLong,
        IntKind::ULLong,
    );
    int.or(long.or(long_long))
}

#[tactic(auto, using(crate::proofs::TypeLemmas::none_fit))]
fn type_with(w: &[u8], suffix: Suffix) -> Option<IntKind>
    ensures { result ≡ spec.type_with w.now (Some suffix) }
{
    match small_value(base_of(w), digits_of(w)) {
        None => None,
        Some(value) => first_fit(value, suffix.is_unsigned, base_of(w) == 10, suffix.longs),
    }
}

fn type_of(w: &[u8]) -> Option<IntKind>
    ensures { result ≡ spec.type_of w.now }
{
    match suffix_meaning(suffix_of(w)) {
        None => None,
        Some(suffix) => type_with(w, suffix),
    }
}

/// The fault of a number, if it has one.
#[tactic(auto, unfolding(crate::specs::Numbers::number_faults))]
pub fn number_fault(w: &[u8]) -> Option<Fault>
    ensures value { option_map pair_of result ≡ first_fault (spec.number_faults w.now) }
    ensures within { IfSome result (λ f. f.at ≤ length w.now) }
{
    let has_suffix = suffix_meaning(suffix_of(w)).is_some();
    if digits_of(w).is_empty() || !has_suffix {
        Some(Fault {
            at: 0,
            rule: NO_CONSTANT,
        })
    } else if type_of(w).is_none() {
        Some(Fault {
            at: 0,
            rule: NO_TYPE,
        })
    } else {
        None
    }
}

/// The value of a number without faults, and its type.
#[tactic(auto, using(crate::proofs::FaultLemmas::number_small))]
pub fn constant(w: &[u8]) -> (u64, IntKind)
    requires sound { IsSound w.now }
    requires number { spellings.begins_number w.now ≡ true }
    ensures value { result.0 ≡ spec.value_of w.now }
    ensures kind { result.1 ≡ unwrap_or (spec.type_of w.now) IntKind.Int }
{
    let value = small_value(base_of(w), digits_of(w)).unwrap_or(0);
    (value, type_of(w).unwrap_or(IntKind::Int))
}
