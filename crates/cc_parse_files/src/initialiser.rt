// Initialisers (C17 6.7.9).
ghost use Rattle.std.specs.Prelude.{◌≡◌, length};
ghost use Rattle.cc_grammar.specs.Reading as spec;
ghost use Rattle.cc_tree.specs.Views.{view, view_value};
ghost use Rattle.cc_parse_tokens.specs.Gives.{Gives};
ghost use Rattle.cc_parse_files.specs.Views.{braced};

use crate::begin::begins_expression;
use cc_base::Spot;
use cc_lex::Punct;
use cc_parse_expr::expr;
use cc_parse_tokens::{Cursor, Fault, TypedefNames, levels};
use cc_tree::Value;
use sqlite_items::Items;
use std::alloc::Global;

/// Values in braces.
#[derive(Drop)]
pub struct Braced {
    pub values: Items<Value<Spot>>,
    /// Whether a comma stands after the last.
    pub trailing: bool,
}

/// An initialiser no deeper than `depth`: an expression, or values in braces.
#[cycle(value)]
pub fn value(
    alloc: Global,
    tokens: &mut Cursor<'_>,
    names: &TypedefNames,
    depth: u32,
) -> Result<Value<Spot>, Fault>
    ensures { Gives view_value (spec.value names.now depth tokens.old) result tokens.new }
{
    let Some(inside) = depth.checked_sub(1) else {
        if tokens.next_is(Punct::LeftBrace) || begins_expression(tokens, names) {
            tokens.mark();
        }
        return Err(Fault::Refused);
    };
    if tokens.next_is(Punct::LeftBrace) {
        let spot = tokens.spot();
        tokens.skip();
        let found = values(alloc, tokens, names, inside)?;
        return Ok(Value::List(spot, found.values, found.trailing));
    }
    let value = expr(alloc, tokens, names, depth, levels::ASSIGNMENT)?;
    Ok(Value::Expr(value.into_inner()))
}

/// Values up to the closing brace, one at least.
#[cycle(value)]
fn values(
    alloc: Global,
    tokens: &mut Cursor<'_>,
    names: &TypedefNames,
    depth: u32,
) -> Result<Braced, Fault>
    ensures { Gives braced (spec.enclosed_by (spec.value names.now depth) (length tokens.old) tokens.old) result tokens.new }
{
    let mut values = Items::new(alloc);
    for _round in 0..tokens.len() {
        values.push(value(alloc, tokens, names, depth)?)?;
        if !tokens.next_is(Punct::Comma) {
            tokens.take(Punct::RightBrace)?;
            return Ok(Braced {
                values,
                trailing: false,
            });
        }
        tokens.skip();
        if tokens.next_is(Punct::RightBrace) {
            tokens.skip();
            return Ok(Braced {
                values,
                trailing: true,
            });
        }
    }
    Err(Fault::Refused)
}
