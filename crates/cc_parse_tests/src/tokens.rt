// The tokens of one text, one call of the cursor after another. Levels are those of docs/grammar.md.

use crate::answers::LONGEST;
use cc_arith::{IntKind, IntOp};
use cc_base::Memory;
use cc_lex::{Keyword, Punct, lex};
use cc_parse_tokens::{
    Cursor, Fault, SpecStart, Start, StmtStart, Tail, TypedefNames, binary_level, binds,
    left_level, levels,
};
use cc_tree::{AssignOp, BinaryOp, UnaryOp};
use std::alloc::Global;
use std::test::Fail;

const TEXT: &[u8] = b"\n T ( 7 'a' \"s\" * = if";

fn begins_with_t(cursor: &Cursor<'_>, names: &TypedefNames) -> bool {
    let spot = cursor.spot();
    cursor.len() == 8
        && spot.line == 2
        && spot.column == 2
        && matches!(cursor.ident(), Some(name) if name.as_str() == "T")
        && cursor.start() == Start::Name
        && names.has("T")
}

fn is_a_type(cursor: &Cursor<'_>, names: &TypedefNames) -> bool {
    cursor.starts_spec(names)
        && cursor.spec_start(names) == SpecStart::Named
        && cursor.behind().next_is(Punct::LeftParen)
}

fn marks_one(cursor: &mut Cursor<'_>) -> bool {
    cursor.mark();
    let is_marked = cursor.is_marked();
    cursor.skip();
    is_marked && !cursor.is_marked()
}

fn takes_paren(cursor: &mut Cursor<'_>) -> bool {
    cursor.take(Punct::RightParen) == Err(Fault::Refused) && cursor.take(Punct::LeftParen) == Ok(())
}

fn has_constants(cursor: &mut Cursor<'_>) -> bool {
    let integer = cursor.integer();
    cursor.skip();
    let character = cursor.character();
    cursor.skip();
    let is_s = matches!(cursor.literal(), Some(bytes) if bytes.bytes() == b"s".as_slice());
    cursor.skip();
    is_s && integer == Some((7, IntKind::Int)) && character == Some(97)
}

fn has_operators(cursor: &mut Cursor<'_>) -> bool {
    let tail = cursor.tail();
    let start = cursor.start();
    cursor.skip();
    let next = cursor.tail();
    cursor.skip();
    start == Start::Unary(UnaryOp::Deref)
        && tail == Tail::Binary(BinaryOp::Int(IntOp::Mul))
        && binds(tail) == levels::PRODUCT
        && next == Tail::Assign(AssignOp::Plain)
        && left_level(next) == levels::UNARY
        && binary_level(BinaryOp::OrOr) == levels::LOGICAL_OR
}

fn takes_if(cursor: &mut Cursor<'_>) -> bool {
    cursor.next_is_keyword(Keyword::If)
        && cursor.stmt_start() == StmtStart::If
        && cursor.take_keyword(Keyword::If) == Ok(())
}

// Whether the text is seen as the calls above say.
fn is_seen(alloc: Global, text: &[u8]) -> Result<bool, Memory> {
    if text.len() > LONGEST {
        return Ok(false);
    }
    let Ok(tokens) = lex(alloc, text) else {
        return Ok(false);
    };
    let mut names = TypedefNames::new(alloc);
    names.add(alloc, "T")?;
    let mut cursor = Cursor::new(tokens.as_slice());
    let is_begun = begins_with_t(&cursor, &names) && is_a_type(&cursor, &names);
    let is_taken = marks_one(&mut cursor) && takes_paren(&mut cursor);
    let is_told = has_constants(&mut cursor) && has_operators(&mut cursor);
    Ok(is_begun && is_taken && is_told && takes_if(&mut cursor))
}

#[test]
fn cursors(rt: HostRuntime) -> Result<(), Fail> {
    assert!(rt; is_seen(rt.alloc(), TEXT)?);
    Ok(())
}
