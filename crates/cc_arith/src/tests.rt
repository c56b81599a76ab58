// What a C compiler gives: each line of the tables in `expected` holds of the crate's calls.

mod expected;

ghost use Rattle.cc_arith.specs.Promotions.{IsPromoted};

use crate::{ArithUndef, IntKind, IntOp, IntUnary, binary, common, convert, promote, range, unary};
use std::str::SplitWhitespace;

const KINDS: [(&str, IntKind); 12] = [
    ("Bool", IntKind::Bool),
    ("Char", IntKind::Char),
    ("SChar", IntKind::SChar),
    ("UChar", IntKind::UChar),
    ("Short", IntKind::Short),
    ("UShort", IntKind::UShort),
    ("Int", IntKind::Int),
    ("UInt", IntKind::UInt),
    ("Long", IntKind::Long),
    ("ULong", IntKind::ULong),
    ("LLong", IntKind::LLong),
    ("ULLong", IntKind::ULLong),
];

const BINARY_OPERATORS: [IntOp; 16] = [
    IntOp::Add,
    IntOp::Sub,
    IntOp::Mul,
    IntOp::Div,
    IntOp::Rem,
    IntOp::And,
    IntOp::Or,
    IntOp::Xor,
    IntOp::Shl,
    IntOp::Shr,
    IntOp::Lt,
    IntOp::Le,
    IntOp::Gt,
    IntOp::Ge,
    IntOp::Eq,
    IntOp::Ne,
];

const UNARY_OPERATORS: [IntUnary; 4] = [
    IntUnary::Plus,
    IntUnary::Minus,
    IntUnary::Invert,
    IntUnary::Not,
];

// `a op b` in C, where `a` has kind `j` and `b` has kind `l`.
fn binary_in_c(op: IntOp, j: IntKind, a: i128, l: IntKind, b: i128) -> Result<i128, ArithUndef> {
    let left = convert(j, a);
    let right = convert(l, b);
    match op {
        IntOp::Shl => binary(IntOp::Shl, promote(j), convert(promote(j), left), right),
        IntOp::Shr => binary(IntOp::Shr, promote(j), convert(promote(j), left), right),
        _ => binary_in_common(op, common(j, l), left, right),
    }
}

fn binary_in_common(op: IntOp, k: IntKind, a: i128, b: i128) -> Result<i128, ArithUndef>
    requires { IsPromoted k }
{
    let left = convert(k, a);
    let right = convert(k, b);
    binary(op, k, left, right)
}

// `op a` in C, where `a` has kind `j`.
fn unary_in_c(op: IntUnary, j: IntKind, a: i128) -> Result<i128, ArithUndef> {
    let k = promote(j);
    unary(op, k, convert(k, convert(j, a)))
}

fn next_kind(words: &mut SplitWhitespace) -> Option<IntKind> {
    let word = words.next()?;
    for (name, kind) in &KINDS {
        if word == *name {
            return Some(*kind);
        }
    }
    None
}

fn next_number(words: &mut SplitWhitespace) -> Option<i128> {
    words.next()?.parse::<i128>().ok()
}

fn next_outcome(words: &mut SplitWhitespace) -> Option<Result<i128, ArithUndef>> {
    match words.next()? {
        "U1" => Some(Err(ArithUndef::Overflow)),
        "U2" => Some(Err(ArithUndef::ZeroDivisor)),
        "U3" => Some(Err(ArithUndef::ShiftCount)),
        "U4" => Some(Err(ArithUndef::ShiftNegative)),
        number => number.parse::<i128>().ok().map(Ok),
    }
}

// Whether the kind has these ends, is so promoted, and has these common kinds with the others.
fn kind_holds(line: &str) -> bool {
    let mut words = line.split_whitespace();
    let Some(kind) = next_kind(&mut words) else {
        return false;
    };
    let (low, high) = range(kind);
    if next_number(&mut words) != Some(low) || next_number(&mut words) != Some(high) {
        return false;
    }
    if next_kind(&mut words) != Some(promote(kind)) {
        return false;
    }
    for (_, other) in &KINDS {
        if next_kind(&mut words) != Some(common(kind, *other)) {
            return false;
        }
    }
    true
}

// Whether the number has these values in the kinds.
fn conversion_holds(line: &str) -> bool {
    let mut words = line.split_whitespace();
    let Some(number) = next_number(&mut words) else {
        return false;
    };
    for (_, kind) in &KINDS {
        if next_number(&mut words) != Some(convert(*kind, number)) {
            return false;
        }
    }
    true
}

// Whether the operators give this of the value.
fn unary_holds(line: &str) -> bool {
    let mut words = line.split_whitespace();
    let (Some(j), Some(a)) = (next_kind(&mut words), next_number(&mut words)) else {
        return false;
    };
    for op in UNARY_OPERATORS {
        if next_outcome(&mut words) != Some(unary_in_c(op, j, a)) {
            return false;
        }
    }
    true
}

// Whether the operators give this of the two values.
fn binary_holds(line: &str) -> bool {
    let mut words = line.split_whitespace();
    let (Some(j), Some(a)) = (next_kind(&mut words), next_number(&mut words)) else {
        return false;
    };
    let (Some(l), Some(b)) = (next_kind(&mut words), next_number(&mut words)) else {
        return false;
    };
    for op in BINARY_OPERATORS {
        if next_outcome(&mut words) != Some(binary_in_c(op, j, a, l, b)) {
            return false;
        }
    }
    true
}

#[test]
fn tables_of_a_compiler(rt: HostRuntime) {
    assert!(rt; expected::KINDS.lines().all(kind_holds));
    assert!(rt; expected::CONVERTED.lines().all(conversion_holds));
    assert!(rt; expected::UNARY.lines().all(unary_holds));
    assert!(rt; expected::BINARY.lines().all(binary_holds));
}
