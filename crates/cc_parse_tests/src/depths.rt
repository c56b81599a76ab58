// Texts with one part nested many times, at the limit of depth.

use crate::answers::{Answer, answer_to};
use cc_base::Memory;
use std::alloc::Global;
use std::test::Fail;

// A text in five parts, how many times its second part and its fourth stand in a row, and how it is answered.
type Nested = ([&'static [u8]; 5], u32, Answer);

// Each form at the limit, and one deeper.
const DEPTHS: [Nested; 14] = [
    ([b"void f(void) ", b"{", b"", b"}", b""], 64, Answer::File),
    (
        [b"void f(void) ", b"{", b"", b"}", b""],
        65,
        Answer::TooDeep(69),
    ),
    (
        [b"void f(void) {", b"(", b"1", b")", b"; }"],
        61,
        Answer::File,
    ),
    (
        [b"void f(void) {", b"(", b"1", b")", b"; }"],
        62,
        Answer::TooDeep(68),
    ),
    (
        [b"void f(void) {", b"- ", b"sizeof (int)", b"", b"; }"],
        61,
        Answer::File,
    ),
    (
        [b"void f(void) {", b"- ", b"sizeof (1)", b"", b"; }"],
        61,
        Answer::TooDeep(69),
    ),
    (
        [b"void f(void) {", b"a + ", b"a", b"", b"; }"],
        61,
        Answer::File,
    ),
    (
        [b"void f(void) {", b"a + ", b"a", b"", b"; }"],
        62,
        Answer::TooDeep(129),
    ),
    ([b"int ", b"*", b"p", b"", b";"], 63, Answer::File),
    ([b"int ", b"*", b"p", b"", b";"], 64, Answer::TooDeep(65)),
    ([b"int a", b"[1]", b"", b"", b";"], 63, Answer::File),
    ([b"int a", b"[1]", b"", b"", b";"], 64, Answer::TooDeep(191)),
    ([b"int a[] = ", b"{", b"1", b"}", b";"], 63, Answer::File),
    (
        [b"int a[] = ", b"{", b"1", b"}", b";"],
        64,
        Answer::TooDeep(69),
    ),
];

// What is refused for its depth alone among statements, and what for another reason.
const DEPTHS_OF_STATEMENTS: [Nested; 10] = [
    (
        [b"void f(void) ", b"{", b")", b"}", b""],
        64,
        Answer::Syntax(69),
    ),
    (
        [b"void f(void) ", b"{", b"int a;", b"}", b""],
        62,
        Answer::File,
    ),
    (
        [b"void f(void) ", b"{", b"int a;", b"}", b""],
        63,
        Answer::TooDeep(69),
    ),
    (
        [b"void f(void) ", b"{", b"case 1:", b"}", b""],
        63,
        Answer::TooDeep(69),
    ),
    (
        [b"void f(void) ", b"{", b"default:", b"}", b""],
        63,
        Answer::File,
    ),
    (
        [b"void f(void) ", b"{", b"do case 1: ;", b"}", b""],
        63,
        Answer::Syntax(69),
    ),
    (
        [b"void f(void) ", b"{", b"switch (1) { }", b"}", b""],
        63,
        Answer::TooDeep(70),
    ),
    (
        [b"void f(void) ", b"{", b"for (int i; ; ) ;", b"}", b""],
        63,
        Answer::TooDeep(70),
    ),
    (
        [b"typedef int T; int a[] = ", b"{", b"T", b"}", b";"],
        64,
        Answer::Syntax(73),
    ),
    (
        [b"int a[] = ", b"{", b"}", b"}", b";"],
        64,
        Answer::Syntax(69),
    ),
];

// What is refused for its depth alone among expressions, types and declarators, and what for another reason.
const DEPTHS_OF_EXPRESSIONS: [Nested; 13] = [
    (
        [b"void f(void) {", b"(", b"}", b")", b"; }"],
        62,
        Answer::Syntax(68),
    ),
    (
        [b"void f(void) {", b"(", b"(int)1", b")", b"; }"],
        61,
        Answer::TooDeep(70),
    ),
    (
        [b"void f(void) {", b"(", b"(int){", b")", b"; }"],
        61,
        Answer::Syntax(70),
    ),
    (
        [b"void f(void) {", b"- ", b"sizeof (int *)", b"", b"; }"],
        61,
        Answer::TooDeep(70),
    ),
    (
        [b"void f(void) {", b"- ", b"sizeof (int x)", b"", b"; }"],
        61,
        Answer::Syntax(70),
    ),
    (
        [b"void f(void) {", b"- ", b"sizeof (}", b"", b"; }"],
        61,
        Answer::Syntax(69),
    ),
    (
        [b"void f(void) {", b"- ", b"a()", b"", b"; }"],
        61,
        Answer::TooDeep(68),
    ),
    (
        [b"void f(void) {", b"a + ", b"a = a", b"", b"; }"],
        61,
        Answer::Syntax(129),
    ),
    (
        [b"", b"struct { ", b"int a; ", b"} a; ", b""],
        64,
        Answer::TooDeep(129),
    ),
    (
        [b"", b"struct { ", b"int; ", b"} a; ", b""],
        64,
        Answer::Syntax(129),
    ),
    ([b"int ", b"(", b"1", b")", b";"], 64, Answer::Syntax(65)),
    ([b"int ", b"*", b"[1]", b"", b";"], 64, Answer::Syntax(65)),
    (
        [b"typedef int T; int ", b"*", b"T", b"", b";"],
        64,
        Answer::Syntax(69),
    ),
];

fn nested_text(alloc: Global, parts: &[&'static [u8]; 5], count: u32) -> Result<Vec<u8>, Memory> {
    let mut text = parts[0].to_vec(alloc)?;
    for _ in 0..count {
        text.extend_from_slice(parts[1])?;
    }
    text.extend_from_slice(parts[2])?;
    for _ in 0..count {
        text.extend_from_slice(parts[3])?;
    }
    text.extend_from_slice(parts[4])?;
    Ok(text)
}

// Whether each text is answered as its row says.
fn are_nested(alloc: Global, rows: &[Nested]) -> Result<bool, Memory> {
    for (parts, count, wanted) in rows {
        let text = nested_text(alloc, parts, *count)?;
        if answer_to(alloc, text.as_slice())? != *wanted {
            return Ok(false);
        }
    }
    Ok(true)
}

#[test]
fn depths(rt: HostRuntime) -> Result<(), Fail> {
    assert!(rt; are_nested(rt.alloc(), &DEPTHS)?);
    Ok(())
}

#[test]
fn depths_of_statements(rt: HostRuntime) -> Result<(), Fail> {
    assert!(rt; are_nested(rt.alloc(), &DEPTHS_OF_STATEMENTS)?);
    Ok(())
}

#[test]
fn depths_of_expressions(rt: HostRuntime) -> Result<(), Fail> {
    assert!(rt; are_nested(rt.alloc(), &DEPTHS_OF_EXPRESSIONS)?);
    Ok(())
}
