//! The integers of C: the twelve kinds, their ranges, the promotions and conversions between them, and
//! what each operator gives on values of a kind, or why C leaves it undefined.
//!
//! A value is an `i128`, which holds every value of every kind; the kind says which of them it is. The
//! choices that C leaves open are made here once: plain `char` is signed and has 8 bits, `short` has 16,
//! `int` 32, `long` and `long long` 64, in two's complement; a conversion to a signed kind is modulo
//! 2^width, and a shift to the right of a negative value rounds down.
//!
//! Nothing here takes memory. `docs/arithmetic.md` has the rules in words.
#![tactic(auto)]

mod binary_operator;
mod bits;
mod conversion;
mod division;
mod exact;
mod kind;
pub mod laws;
mod product;
mod promotion;
mod representation;
mod shift;
#[cfg(test)]
mod tests;
mod unary_operator;
mod undefined;

pub use binary_operator::{IntOp, binary};
pub use conversion::convert;
pub use kind::{IntKind, range};
pub use promotion::{common, promote};
pub use unary_operator::{IntUnary, unary};
pub use undefined::ArithUndef;
