// Declarations (C17 6.7).
ghost use Rattle.std.specs.Prelude.{◌≡◌, map, option_map, IfOk, OnOk};
ghost use Rattle.cc_grammar.specs.Reading as spec;
ghost use Rattle.cc_grammar.specs.Names as typedefs;
ghost use Rattle.cc_tree.specs.Views.{view_value, view_init, view_declarator, view_declaration, specs_of};
ghost use Rattle.cc_parse_tokens.specs.Gives.{Gives};
ghost use Rattle.cc_parse_files.specs.Parts as parts;

use crate::initialiser::value;
use cc_base::{Memory, Spot, Text};
use cc_lex::Punct;
use cc_parse_expr::{Mode, declarator, specs};
use cc_parse_tokens::{Cursor, Fault, TypedefNames};
use cc_tree::{Declaration, Declarator, Init, Spec, SpecWord, Value};
use sqlite_items::{Boxed, Items};
use std::alloc::Global;

/// `=` and an initialiser, or nothing.
pub fn given(
    alloc: Global,
    tokens: &mut Cursor<'_>,
    names: &TypedefNames,
    depth: u32,
) -> Result<Option<Value<Spot>>, Fault>
    ensures { Gives (option_map view_value) (spec.given names.now depth tokens.old) result tokens.new }
{
    if tokens.next_is(Punct::Equal) {
        tokens.skip();
        let value = value(alloc, tokens, names, depth)?;
        Ok(Some(value))
    } else {
        Ok(None)
    }
}

/// Whether the specifiers have `typedef`.
pub fn has_typedef(specs: &[Spec<Spot>]) -> bool
    ensures { result ≡ typedefs.has_typedef (specs_of specs.now) }
{
    for spec in specs {
        if let Spec::Word(_, SpecWord::Typedef) = spec {
            return true;
        }
    }
    false
}

/// Takes the declared name down where the declaration has `typedef`.
pub fn declare(
    alloc: Global,
    names: &mut TypedefNames,
    typedef: bool,
    declarator: &Declarator<Spot>,
) -> Result<(), Memory>
    ensures ok { OnOk result (names.new ≡ typedefs.after_declarator typedef (view_declarator declarator.now) names.old) }
{
    if typedef {
        add_declared(alloc, names, declarator)?;
    }
    Ok(())
}

fn add_declared(
    alloc: Global,
    names: &mut TypedefNames,
    declarator: &Declarator<Spot>,
) -> Result<(), Memory>
    ensures { OnOk result (names.new ≡ typedefs.with_declared (view_declarator declarator.now) names.old) }
{
    match declarator {
        Declarator::Name(_, name) => names.add(alloc, name.as_str()),
        Declarator::Nameless => Ok(()),
        Declarator::Pointer(_, _, inner) => add_declared(alloc, names, inner.get()),
        Declarator::Array(_, inner, _) => add_declared(alloc, names, inner.get()),
        Declarator::Func(_, inner, _) => add_declared(alloc, names, inner.get()),
        Declarator::Paren(_, inner) => add_declared(alloc, names, inner.get()),
    }
}

/// The declarators of a declaration with their initialisers, where the first one was read already.
pub fn inits(
    alloc: Global,
    tokens: &mut Cursor<'_>,
    names: &mut TypedefNames,
    depth: u32,
    typedef: bool,
    first: Boxed<Declarator<Spot>>,
) -> Result<Items<Init<Spot>>, Fault>
    ensures gives { Gives (map view_init) (spec.inits depth typedef names.old (view_declarator first) tokens.old) result tokens.new }
    ensures after { IfOk result (λ is. names.new ≡ typedefs.after_inits typedef (map view_init is) names.old) }
{
    let mut found = Items::new(alloc);
    let mut next = first;
    for _round in 0..tokens.len() + 1 {
        declare(alloc, names, typedef, next.get())?;
        let value = given(alloc, tokens, names, depth)?;
        found.push(Init {
            declarator: next.into_inner(),
            value,
        })?;
        if !tokens.next_is(Punct::Comma) {
            return Ok(found);
        }
        tokens.skip();
        next = declarator(alloc, tokens, names, depth, Mode::Named)?;
    }
    Err(Fault::Refused)
}

/// A declaration with its semicolon.
pub fn declaration(
    alloc: Global,
    tokens: &mut Cursor<'_>,
    names: &mut TypedefNames,
    depth: u32,
) -> Result<Declaration<Spot>, Fault>
    ensures gives { Gives view_declaration (spec.declaration_at depth names.old tokens.old) result tokens.new }
    ensures after { IfOk result (λ d. names.new ≡ typedefs.after_declaration (view_declaration d) names.old) }
{
    let spot = tokens.spot();
    let specs = specs(alloc, tokens, names, depth)?;
    if tokens.next_is(Punct::Semicolon) {
        tokens.skip();
        return Ok(Declaration {
            note: spot,
            specs,
            inits: Items::new(alloc),
        });
    }
    declared(alloc, tokens, names, depth, spot, specs)
}

fn declared(
    alloc: Global,
    tokens: &mut Cursor<'_>,
    names: &mut TypedefNames,
    depth: u32,
    spot: Spot,
    specs: Items<Spec<Spot>>,
) -> Result<Declaration<Spot>, Fault>
    ensures gives { Gives view_declaration (parts.declared depth names.old spot (specs_of specs) tokens.old) result tokens.new }
    ensures after { IfOk result (λ d. names.new ≡ typedefs.after_declaration (view_declaration d) names.old) }
{
    let first = declarator(alloc, tokens, names, depth, Mode::Named)?;
    let typedef = has_typedef(specs.as_slice());
    let inits = inits(alloc, tokens, names, depth, typedef, first)?;
    tokens.take(Punct::Semicolon)?;
    Ok(Declaration {
        note: spot,
        specs,
        inits,
    })
}
