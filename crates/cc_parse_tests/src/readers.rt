// Each reader on a text that is what it reads.

use crate::answers::LONGEST;
use cc_base::Spot;
use cc_lex::lex;
use cc_parse::MAX_DEPTH;
use cc_parse_expr::{Mode, declarator, expr, specs, spot_or};
use cc_parse_files::reading;
use cc_parse_tokens::{Cursor, Fault, TypedefNames, levels};
use std::alloc::Global;
use std::test::Fail;

// An expression, to the last token.
fn reads_expression(alloc: Global, cursor: &mut Cursor<'_>) -> Result<bool, Fault> {
    let names = TypedefNames::new(alloc);
    expr(alloc, cursor, &names, MAX_DEPTH, levels::COMMA)?;
    Ok(cursor.len() == 0)
}

// Two specifiers and a declarator, which stands at its name.
fn reads_declaration(alloc: Global, cursor: &mut Cursor<'_>) -> Result<bool, Fault> {
    let names = TypedefNames::new(alloc);
    let specs = specs(alloc, cursor, &names, MAX_DEPTH)?;
    let declarator = declarator(alloc, cursor, &names, MAX_DEPTH, Mode::Named)?;
    let spot = spot_or(declarator.get(), Spot::start());
    Ok(cursor.len() == 0 && specs.len() == 2 && spot.column == 12)
}

// A file of two declarations.
fn reads_file(alloc: Global, cursor: &mut Cursor<'_>) -> Result<bool, Fault> {
    let file = reading(alloc, cursor, MAX_DEPTH)?;
    Ok(cursor.len() == 0 && file.externals.len() == 2)
}

fn reads<R: Fn(Global, &mut Cursor<'_>) -> Result<bool, Fault>>(
    alloc: Global,
    text: &[u8],
    read: R,
) -> bool
    requires { R.IsAlwaysCallable read }
{
    if text.len() > LONGEST {
        return false;
    }
    let Ok(tokens) = lex(alloc, text) else {
        return false;
    };
    read(alloc, &mut Cursor::new(tokens.as_slice())) == Ok(true)
}

#[test]
fn each_reader(rt: HostRuntime) -> Result<(), Fail> {
    let alloc = rt.alloc();
    assert!(rt; reads(alloc, b"a - b * c", reads_expression));
    assert!(rt; reads(alloc, b"const int *x", reads_declaration));
    assert!(rt; reads(alloc, b"int x; int y;", reads_file));
    Ok(())
}
