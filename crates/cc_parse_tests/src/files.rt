// Files and texts that are none, and where they stop being one.

use crate::answers::{Answer, are_answered};
use std::test::Fail;

// Where texts stop being a file.
const PLACES: [(&[u8], Answer); 14] = [
    (b"void f(void) { if (", Answer::Syntax(8)),
    (b"void f(void) { return 1 + ; }", Answer::Syntax(9)),
    (b"int a", Answer::Syntax(2)),
    (b"void f(void) { x: ; }", Answer::Syntax(7)),
    (b"struct s { int a : 3; };", Answer::Syntax(5)),
    (b"int a[] = { .x = 1 };", Answer::Syntax(6)),
    (b"void f(void) { x = (int){1}; }", Answer::Syntax(11)),
    (b";", Answer::Syntax(0)),
    (b"void f(void) { switch (a) b; }", Answer::Syntax(10)),
    (b"void f(void) { while (1) case 1: ; }", Answer::Syntax(10)),
    (b"struct s { int; };", Answer::Syntax(4)),
    (b"int a[static 3];", Answer::Syntax(3)),
    (b"void f(a) int a; { }", Answer::Syntax(3)),
    (b"int f(int a[*]);", Answer::Syntax(7)),
];

// Files.
const FILES: [(&[u8], Answer); 10] = [
    (b"", Answer::File),
    (
        b"int *const p; int (*f[3])(void); void (*g(int))(int);",
        Answer::File,
    ),
    (
        b"struct s { int a, b; } x; enum e { A, B = 2, }; int a[] = { 1, { 2 }, };",
        Answer::File,
    ),
    (
        b"char *s = \"a\" \"b\"; int f(); int g(int, char), h;",
        Answer::File,
    ),
    (
        b"void f(void) { a = b = c; a - b - c; -a++; *p++; &a[1].m; p->m(1, 2); }",
        Answer::File,
    ),
    (
        b"void f(void) { if (a) if (b) c; else d; else e; }",
        Answer::File,
    ),
    (
        b"void f(void) { for (int i = 0; ; ) ; for (;;) break; do ; while (1); }",
        Answer::File,
    ),
    (
        b"void f(int a) { switch (a) { case 1: default: case 2: b; } return; }",
        Answer::File,
    ),
    (b"void f(void) { int T; T * x; }", Answer::File),
    (
        b"void f(void) { sizeof (x) + 1; sizeof (int) + 1; sizeof x[1]; (x)(y); }",
        Answer::File,
    ),
];

// Where typedef names are known.
const TYPEDEF_NAMES: [(&[u8], Answer); 10] = [
    (b"typedef int T; T x; struct s { T a; };", Answer::File),
    (
        b"typedef int T; void f(void) { T * x; a * x; (T)(x); sizeof (T); }",
        Answer::File,
    ),
    (
        b"struct s { int T; } y; typedef int T; void f(void) { y.m; }",
        Answer::File,
    ),
    (b"typedef int T; T T;", Answer::File),
    (b"void f(void) { typedef int T; } T x;", Answer::File),
    (b"typedef int T = T;", Answer::Syntax(4)),
    (b"typedef int T; int * T;", Answer::Syntax(6)),
    (b"typedef int T; void f(void) { a.T; }", Answer::Syntax(12)),
    (b"T x;", Answer::Syntax(0)),
    (b"void f(void) { (T)x; }", Answer::Syntax(9)),
];

// What the grammar leaves out.
const OTHER_FAULTS: [(&[u8], Answer); 10] = [
    (b"void f(void) { a ? b : c = d; }", Answer::Syntax(11)),
    (b"void f(void) { while (1) int x; }", Answer::Syntax(10)),
    (b"void f(void) { (int)a = b; }", Answer::Syntax(10)),
    (b"void f(void) { f(a,); }", Answer::Syntax(10)),
    (
        b"void f(void) { if (a) ; else ; else ; }",
        Answer::Syntax(13),
    ),
    (b"void f(void) { a.1; }", Answer::NoTokens),
    (b"int a[3] = { };", Answer::Syntax(7)),
    (b"enum e { };", Answer::Syntax(3)),
    (b"int f(int,);", Answer::Syntax(5)),
    (b"int (*);", Answer::Syntax(3)),
];

// Where a name may be a type.
const TYPES_AND_NAMES: [(&[u8], Answer); 12] = [
    (b"typedef int T; void f(void) { (T)x; }", Answer::File),
    (
        b"typedef int T; void f(void) { (T)(x) = 1; }",
        Answer::Syntax(16),
    ),
    (b"void f(void) { (x)(y) = 1; }", Answer::File),
    (
        b"typedef int T; void f(void) { sizeof (T)[1]; }",
        Answer::Syntax(14),
    ),
    (b"void f(void) { sizeof (x)[1]; }", Answer::File),
    (b"typedef int T; void f(void) { T * x = 0; }", Answer::File),
    (b"void f(void) { a * x = 0; }", Answer::Syntax(9)),
    (b"typedef int T; struct s { int T; };", Answer::Syntax(9)),
    (b"typedef int T, U[sizeof (T)]; T a; U b;", Answer::File),
    (b"void f(void) { ++(int)a; }", Answer::Syntax(8)),
    (b"void f(void) { a + b = c; }", Answer::Syntax(9)),
    (b"void f(void) { \"a\" \"b\" c; }", Answer::Syntax(8)),
];

// Labels, `else`, and what may stand in brackets.
const STATEMENTS_AND_ARRAYS: [(&[u8], Answer); 8] = [
    (
        b"void f(int a) { switch (a) { case 1: case 2: } }",
        Answer::File,
    ),
    (b"void f(int a) { switch (a) { b; } }", Answer::File),
    (
        b"void f(int a) { switch (a) case 1: ; }",
        Answer::Syntax(11),
    ),
    (b"void f(void) { if (1) default: ; }", Answer::Syntax(10)),
    (b"void f(void) { if (a) b; c; else d; }", Answer::Syntax(14)),
    (b"int a[] = { [0] = 1 };", Answer::Syntax(6)),
    (b"int f(int a[const 3]);", Answer::Syntax(6)),
    (b"struct s { int : 3; };", Answer::Syntax(4)),
];

#[test]
fn places(rt: HostRuntime) -> Result<(), Fail> {
    assert!(rt; are_answered(rt.alloc(), &PLACES)?);
    Ok(())
}

#[test]
fn files(rt: HostRuntime) -> Result<(), Fail> {
    assert!(rt; are_answered(rt.alloc(), &FILES)?);
    Ok(())
}

#[test]
fn typedef_names(rt: HostRuntime) -> Result<(), Fail> {
    assert!(rt; are_answered(rt.alloc(), &TYPEDEF_NAMES)?);
    Ok(())
}

#[test]
fn other_faults(rt: HostRuntime) -> Result<(), Fail> {
    assert!(rt; are_answered(rt.alloc(), &OTHER_FAULTS)?);
    Ok(())
}

#[test]
fn types_and_names(rt: HostRuntime) -> Result<(), Fail> {
    assert!(rt; are_answered(rt.alloc(), &TYPES_AND_NAMES)?);
    Ok(())
}

#[test]
fn statements_and_arrays(rt: HostRuntime) -> Result<(), Fail> {
    assert!(rt; are_answered(rt.alloc(), &STATEMENTS_AND_ARRAYS)?);
    Ok(())
}
