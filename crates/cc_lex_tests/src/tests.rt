// The rules of `docs/tokens.md` by examples, worked out by hand.

use cc_base::Spot;
use cc_lex::{LexFault, Token, TokenKind, TokenList, banned, is_keyword, lex, spot_of};
use std::alloc::Global;
use std::test::Fail;

/// The most bytes of a text.
const MOST_BYTES: usize = 1048576;

// Each row is a text and what `shown` gives.

/// The first fault, and the least rule there.
const FIRST_FAULTS: [(&[u8], &str); 6] = [
    (b"int a = 1.5;", "L6 at 8"),
    (b"int a; /* x", "L2 at 7"),
    (b"int a = 18446744073709551616;", "L7 at 8"),
    (b"int a; #define X", "L9 at 7"),
    (b"", ""),
    (b"a @ 08", "L1 at 2"),
];

/// The longest token.
const LONGEST: [(&[u8], &str); 6] = [
    (b"a+++b", "1:1 a, 1:2 PlusPlus, 1:4 Plus, 1:5 b"),
    (
        b">>=>>>",
        "1:1 ShiftRightEqual, 1:4 ShiftRight, 1:6 Greater",
    ),
    (b".....", "1:1 Ellipsis, 1:4 Dot, 1:5 Dot, C13 at token 0"),
    (b".. .", "1:1 Dot, 1:2 Dot, 1:4 Dot"),
    (
        b"x->y-->=z",
        "1:1 x, 1:2 Arrow, 1:4 y, 1:5 MinusMinus, 1:7 GreaterEqual, 1:9 z",
    ),
    (b"intx int", "1:1 intx, 1:6 Int"),
];

/// Numbers that are no integer constant, or fit no type.
const NO_CONSTANTS: [(&[u8], &str); 17] = [
    (b"1e+5", "L6 at 0"),
    (b"0x1p-3", "L6 at 0"),
    (b"0xe+1", "L6 at 0"),
    (b"a.5", "L6 at 1"),
    (b"....5", "L6 at 3"),
    (b"1..2", "L6 at 0"),
    (b"08", "L6 at 0"),
    (b"0x", "L6 at 0"),
    (b"0xu", "L6 at 0"),
    (b"0b1", "L6 at 0"),
    (b"12ab", "L6 at 0"),
    (b"1lL", "L6 at 0"),
    (b"1lul", "L6 at 0"),
    (b"1uu", "L6 at 0"),
    (b"9223372036854775808", "L7 at 0"),
    (b"0x10000000000000000", "L7 at 0"),
    (b"02000000000000000000000", "L7 at 0"),
];

/// Integer constants.
const CONSTANTS: [(&[u8], &str); 13] = [
    (b"0x1f+1", "1:1 31 Int, 1:5 Plus, 1:6 1 Int"),
    (b"1uLL", "1:1 1 ULLong"),
    (b"1LLU", "1:1 1 ULLong"),
    (b"1Lu", "1:1 1 ULong"),
    (b"0 017 0X1F", "1:1 0 Int, 1:3 15 Int, 1:7 31 Int"),
    (b"0xFFFFFFFF", "1:1 4294967295 UInt"),
    (b"4294967295", "1:1 4294967295 Long"),
    (
        b"2147483647 2147483648 2147483648u",
        "1:1 2147483647 Int, 1:12 2147483648 Long, 1:23 2147483648 UInt",
    ),
    (
        b"0x80000000 0100000000000 4294967296U",
        "1:1 2147483648 UInt, 1:12 8589934592 Long, 1:26 4294967296 ULong",
    ),
    (
        b"0x8000000000000000 0x8000000000000000l 0xffffffffffffffffLL",
        "1:1 9223372036854775808 ULong, 1:20 9223372036854775808 ULong, 1:40 18446744073709551615 ULLong",
    ),
    (b"01777777777777777777777", "1:1 18446744073709551615 ULong"),
    (b"1l 1ll", "1:1 1 Long, 1:4 1 LLong"),
    (
        b"9223372036854775807 18446744073709551615u",
        "1:1 9223372036854775807 Long, 1:21 18446744073709551615 ULong",
    ),
];

/// Character constants.
const CHARACTERS: [(&[u8], &str); 4] = [
    (
        b"'a' '\\0' '\"' '\\''",
        "1:1 '97', 1:5 '0', 1:10 '34', 1:14 '39'",
    ),
    (
        b"'\\377' '\\200' '\\x7f' '\\x80'",
        "1:1 '-1', 1:8 '-128', 1:15 '127', 1:22 '-128'",
    ),
    (
        b"'\\a' '\\b' '\\f' '\\n' '\\r' '\\t' '\\v'",
        "1:1 '7', 1:6 '8', 1:11 '12', 1:16 '10', 1:21 '13', 1:26 '9', 1:31 '11'",
    ),
    (
        b"'\\?' '\\\\' '\xe9' '\\1'",
        "1:1 '63', 1:6 '92', 1:11 '-23', 1:15 '1'",
    ),
];

/// Faults of character constants.
const NO_CHARACTERS: [(&[u8], &str); 14] = [
    (b"'ab'", "L5 at 0"),
    (b"''", "L5 at 0"),
    (b"'''", "L5 at 0"),
    (b"'\\08'", "L5 at 0"),
    (b"'\\1234'", "L5 at 0"),
    (b"'\\q'", "L4 at 1"),
    (b"'\\x'", "L4 at 1"),
    (b"'\\400'", "L4 at 1"),
    (b"'\\x100'", "L4 at 1"),
    (b"'\\qa'", "L5 at 0"),
    (b"'\\xg'", "L5 at 0"),
    (b"'\\4000'", "L5 at 0"),
    (b" 'a", "L3 at 1"),
    (b"'\\'", "L3 at 0"),
];

/// String literals.
const STRINGS: [(&[u8], &str); 11] = [
    (
        b"\"\" \"a\\x41\\101'\\\"\" \"\xff\"",
        "1:1 [], 1:4 [97, 65, 65, 39, 34], 1:19 [255]",
    ),
    (b"\"\\0012\\x0a\"", "1:1 [1, 50, 10]"),
    (b"\"\\400\"", "L4 at 1"),
    (b"x = \"ab\\xfff\"", "L4 at 7"),
    (b"\"a\\qb\\x\"", "L4 at 2"),
    (b"\"\\\r\"", "L4 at 1"),
    (b"f(\"ab\n\")", "L3 at 2"),
    (b"\"ab", "L3 at 0"),
    (b"\"a\\\n\"", "L3 at 0"),
    (b"\"a\\", "L3 at 0"),
    (b"\"a\\\r\n\"", "L3 at 0"),
];

/// Prefixes.
const PREFIXES: [(&[u8], &str); 7] = [
    (b"a = L\"x\";", "L9 at 4"),
    (b"u8\"x\"", "L9 at 0"),
    (b"u8'x'", "L9 at 0"),
    (b"U'x", "L9 at 0"),
    (b"u'ab'", "L9 at 0"),
    (b"L \"x\" xL'a'", "1:1 L, 1:3 [120], 1:7 xL, 1:9 '97'"),
    (b"10L'a'", "1:1 10 Long, 1:4 '97'"),
];

/// Comments.
const COMMENTS: [(&[u8], &str); 7] = [
    (
        b"\"/* */\" \"//\"",
        "1:1 [47, 42, 32, 42, 47], 1:9 [47, 47]",
    ),
    (b"a/**/b/*/*/c // d", "1:1 a, 1:6 b, 1:12 c"),
    (b"/* \xff ' \" @ */;", "1:14 Semicolon"),
    (b"// \xff\n;", "2:1 Semicolon"),
    (b"/*/", "L2 at 0"),
    (b"a //* b", "1:1 a"),
    (b"a/ *b", "1:1 a, 1:2 Slash, 1:4 Star, 1:5 b"),
];

/// Skipped lines.
const SKIPPED_LINES: [(&[u8], &str); 15] = [
    (b"# 1 \"a.c\"\n;", "2:1 Semicolon"),
    (b" \t#\t pragma once ' @\n;", "2:1 Semicolon"),
    (b"#line 5\n#1x\n#pragma\n;", "4:1 Semicolon"),
    (b"#liner", "L9 at 0"),
    (b"#line08", "L9 at 0"),
    (b"#pragma_once", "L9 at 0"),
    (b"a # 1", "L9 at 2"),
    (b"/* */ # 1", "L9 at 6"),
    (b"\x0b# 1", "L9 at 1"),
    (b"\x0c# 1", "L9 at 1"),
    (b"\r# 1", "L9 at 1"),
    (b"#", "L9 at 0"),
    (b"#\n1", "L9 at 0"),
    (b"# include", "L9 at 0"),
    (b"#pragma /*\n;", "2:1 Semicolon"),
];

/// Splices and trigraphs.
const SPLICES_AND_TRIGRAPHS: [(&[u8], &str); 11] = [
    (b"/* a\\\nb */", "L8 at 4"),
    (b"/* a\\\r\nb */", "L8 at 4"),
    (b"#pragma \\\n", "L8 at 8"),
    (b"a \\\n@", "L8 at 2"),
    (b"@ \\\n", "L1 at 0"),
    (b"/* \\\n", "L2 at 0"),
    (b"x = \"ab??=\";", "L9 at 7"),
    (b"// ???/", "L9 at 4"),
    (b"a ??> ??(b", "L9 at 2"),
    (b"a??b??=:", "L9 at 4"),
    (
        b"a??b??:",
        "1:1 a, 1:2 Question, 1:3 Question, 1:4 b, 1:5 Question, 1:6 Question, 1:7 Colon",
    ),
];

/// Digraphs.
const DIGRAPHS: [(&[u8], &str); 5] = [
    (b"a<:0:>", "L9 at 1"),
    (b"<::", "L9 at 0"),
    (b"a <<: b", "1:1 a, 1:3 ShiftLeft, 1:5 Colon, 1:7 b"),
    (b"a %= b %> c", "L9 at 7"),
    (b"%:", "L9 at 0"),
];

/// Stray bytes.
const STRAY_BYTES: [(&[u8], &str); 8] = [
    (b"a\x80", "L1 at 1"),
    (b"\\ a", "L1 at 0"),
    (b"a\\\r", "L1 at 1"),
    (b"\\\ra\n", "L1 at 0"),
    (b"a\\", "L1 at 1"),
    (b"a\0", "L1 at 1"),
    (b"$", "L1 at 0"),
    (b"a $", "L1 at 2"),
];

/// The 46 punctuators, in the order of C17 6.4.6.
const PUNCTUATORS: [(&[u8], &str); 3] = [
    (
        b"[ ] ( ) { } . -> ++ -- & * + - ~ !",
        "1:1 LeftBracket, 1:3 RightBracket, 1:5 LeftParen, 1:7 RightParen, 1:9 LeftBrace, 1:11 RightBrace, 1:13 Dot, 1:15 Arrow, 1:18 PlusPlus, 1:21 MinusMinus, 1:24 And, 1:26 Star, 1:28 Plus, 1:30 Minus, 1:32 Tilde, 1:34 Not",
    ),
    (
        b"/ % << >> < > <= >= == != ^ | && || ?",
        "1:1 Slash, 1:3 Percent, 1:5 ShiftLeft, 1:8 ShiftRight, 1:11 Less, 1:13 Greater, 1:15 LessEqual, 1:18 GreaterEqual, 1:21 EqualEqual, 1:24 NotEqual, 1:27 Caret, 1:29 Or, 1:31 AndAnd, 1:34 OrOr, 1:37 Question",
    ),
    (
        b": ; ... = *= /= %= += -= <<= >>= &= ^= |= ,",
        "1:1 Colon, 1:3 Semicolon, 1:5 Ellipsis, 1:9 Equal, 1:11 StarEqual, 1:14 SlashEqual, 1:17 PercentEqual, 1:20 PlusEqual, 1:23 MinusEqual, 1:26 ShiftLeftEqual, 1:30 ShiftRightEqual, 1:34 AndEqual, 1:37 CaretEqual, 1:40 OrEqual, 1:43 Comma, C13 at token 2",
    ),
];

/// White bytes, lines and columns.
const PLACES: [(&[u8], &str); 1] = [(b"\ta \x0b\x0c\r\n  b\n\nc", "1:2 a, 2:3 b, 4:1 c")];

/// The first token that the profile doesn't have.
const BANNED: [(&[u8], &str); 4] = [
    (
        b"asm x; goto y;",
        "1:1 asm, 1:5 x, 1:6 Semicolon, 1:8 Goto, 1:13 y, 1:14 Semicolon, C14 at token 0",
    ),
    (
        b"_Static_assert union __asm",
        "1:1 StaticAssert, 1:16 Union, 1:22 __asm, C12 at token 0",
    ),
    (
        b"int __attribute__",
        "1:1 Int, 1:5 __attribute__, C14 at token 1",
    ),
    (
        b"Float __asm__x floats __Bool",
        "1:1 Float, 1:7 __asm__x, 1:16 floats, 1:23 __Bool",
    ),
];

// Each row is a word and the rule that it meets.

const BANNED_C1_TO_C8: [(&[u8], u8); 12] = [
    (b"float", 1),
    (b"double", 1),
    (b"_Complex", 1),
    (b"_Imaginary", 1),
    (b"union", 2),
    (b"goto", 3),
    (b"volatile", 4),
    (b"restrict", 5),
    (b"register", 6),
    (b"auto", 6),
    (b"_Atomic", 7),
    (b"_Thread_local", 8),
];

const BANNED_C9_TO_C14: [(&[u8], u8); 10] = [
    (b"_Alignas", 9),
    (b"_Alignof", 9),
    (b"_Generic", 10),
    (b"_Noreturn", 11),
    (b"_Static_assert", 12),
    (b"...", 13),
    (b"asm", 14),
    (b"__asm", 14),
    (b"__asm__", 14),
    (b"__attribute__", 14),
];

/// The keywords that meet no rule; the other 17 stand above.
const ALLOWED: &str =
    "break case char const continue default do else enum extern for if inline int long return short signed sizeof static struct switch typedef unsigned void while _Bool";

/// A text, an offset, and the line and the column there.
const SPOTS: [(&[u8], u64, Spot); 6] = [
    (b"", 0, Spot { line: 1, column: 1 }),
    (b"ab", 1, Spot { line: 1, column: 2 }),
    (b"ab", 2, Spot { line: 1, column: 3 }),
    (b"a\nb", 1, Spot { line: 1, column: 2 }),
    (b"a\nb", 2, Spot { line: 2, column: 1 }),
    (b"\t\r\xe9\n\n b", 6, Spot { line: 3, column: 2 }),
];

/// A token, as the rows write it.
fn shown_token(alloc: Global, token: &Token) -> Result<String, Fail> {
    let Spot { line, column } = token.spot;
    let text = match &token.kind {
        TokenKind::Keyword(keyword) => format!(in alloc; "{line}:{column} {keyword:?}")?,
        TokenKind::Identifier(name) => format!(in alloc; "{line}:{column} {name}")?,
        TokenKind::Integer { value, kind } => format!(in alloc;
            "{line}:{column} {value} {kind:?}"
        )?,
        TokenKind::Character { value } => format!(in alloc; "{line}:{column} '{value}'")?,
        TokenKind::Str(bytes) => format!(in alloc; "{line}:{column} {:?}", bytes.bytes())?,
        TokenKind::Punct(punct) => format!(in alloc; "{line}:{column} {punct:?}")?,
    };
    Ok(text)
}

/// What `lex` and `banned` answer.
fn shown(alloc: Global, bytes: &[u8]) -> Result<String, Fail> {
    if bytes.len() > MOST_BYTES {
        return Ok(format!(in alloc; "too long")?);
    }
    let tokens = match lex(alloc, bytes) {
        Ok(tokens) => tokens,
        Err(LexFault::At { offset, rule }) => return Ok(format!(in alloc; "L{rule} at {offset}")?),
        Err(LexFault::Memory) => return Ok(format!(in alloc; "no memory")?),
    };
    let mut text = String::new(alloc);
    for i in 0..tokens.len() {
        if i != 0 {
            text.push_str(", ")?;
        }
        text.push_str(shown_token(alloc, tokens.get(i))?.as_str())?;
    }
    if let Some((index, rule)) = banned(&tokens) {
        text.push_str(format!(in alloc; ", C{rule} at token {index}")?.as_str())?;
    }
    Ok(text)
}

/// The tokens of the bytes, if they have a cut.
fn cut(alloc: Global, bytes: &[u8]) -> Option<TokenList> {
    if bytes.len() > MOST_BYTES {
        return None;
    }
    lex(alloc, bytes).ok()
}

/// Whether `shown` gives for each row what stands there.
fn rows_hold(alloc: Global, rows: &[(&[u8], &str)]) -> Result<bool, Fail> {
    for row in rows {
        if shown(alloc, row.0)?.as_str() != row.1 {
            return Ok(false);
        }
    }
    Ok(true)
}

/// Whether the first token of each row, and no earlier one, meets the rule.
fn rules_hold(alloc: Global, rows: &[(&[u8], u8)]) -> bool {
    for row in rows {
        let found = match cut(alloc, row.0) {
            None => None,
            Some(tokens) => banned(&tokens),
        };
        if found != Some((0, row.1)) {
            return false;
        }
    }
    true
}

/// Whether the text is of so many words, each a keyword by its spelling, and none of which meets a rule.
fn are_allowed_keywords(alloc: Global, text: &str, count: usize) -> bool {
    let mut words = text.split_whitespace();
    for _ in 0..count {
        match words.next() {
            Some(word) if is_keyword(word.as_bytes()) => {}
            _ => return false,
        }
    }
    match cut(alloc, text.as_bytes()) {
        None => false,
        Some(tokens) => tokens.len() == count as u64 && banned(&tokens).is_none(),
    }
}

/// Whether each offset has the line and the column of its row.
fn spots_hold(rows: &[(&[u8], u64, Spot)]) -> bool {
    for row in rows {
        if row.0.len() > MOST_BYTES
            || row.1 > row.0.len() as u64
            || spot_of(row.0, row.1) != row.2
        {
            return false;
        }
    }
    true
}

#[test]
fn longest_tokens(rt: HostRuntime) -> Result<(), Fail> {
    let alloc = rt.alloc();
    assert!(rt; rows_hold(alloc, &FIRST_FAULTS)?);
    assert!(rt; rows_hold(alloc, &LONGEST)?);
    assert!(rt; rows_hold(alloc, &PUNCTUATORS)?);
    assert!(rt; rows_hold(alloc, &DIGRAPHS)?);
    assert!(rt; rows_hold(alloc, &STRAY_BYTES)?);
    Ok(())
}

#[test]
fn constants(rt: HostRuntime) -> Result<(), Fail> {
    let alloc = rt.alloc();
    assert!(rt; rows_hold(alloc, &NO_CONSTANTS)?);
    assert!(rt; rows_hold(alloc, &CONSTANTS)?);
    assert!(rt; rows_hold(alloc, &CHARACTERS)?);
    assert!(rt; rows_hold(alloc, &NO_CHARACTERS)?);
    assert!(rt; rows_hold(alloc, &STRINGS)?);
    assert!(rt; rows_hold(alloc, &PREFIXES)?);
    Ok(())
}

#[test]
fn comments_and_lines(rt: HostRuntime) -> Result<(), Fail> {
    let alloc = rt.alloc();
    assert!(rt; rows_hold(alloc, &COMMENTS)?);
    assert!(rt; rows_hold(alloc, &SKIPPED_LINES)?);
    assert!(rt; rows_hold(alloc, &SPLICES_AND_TRIGRAPHS)?);
    assert!(rt; rows_hold(alloc, &PLACES)?);
    assert!(rt; spots_hold(&SPOTS));
    Ok(())
}

#[test]
fn the_words_of_the_profile(rt: HostRuntime) -> Result<(), Fail> {
    let alloc = rt.alloc();
    assert!(rt; rows_hold(alloc, &BANNED)?);
    assert!(rt; rules_hold(alloc, &BANNED_C1_TO_C8));
    assert!(rt; rules_hold(alloc, &BANNED_C9_TO_C14));
    assert!(rt; are_allowed_keywords(alloc, ALLOWED, 27));
    assert!(rt; !is_keyword(b"Int") && !is_keyword(b""));
    Ok(())
}
