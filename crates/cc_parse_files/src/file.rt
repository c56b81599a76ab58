// What stands in a file (C17 6.9).
ghost use Rattle.std.specs.Prelude.{◌≡◌, suc, map, length, IfOk};
ghost use Rattle.cc_grammar.specs.Reading as spec;
ghost use Rattle.cc_grammar.specs.Names as typedefs;
ghost use Rattle.cc_tree.specs.Views.{view_declarator, view_external, view_file, specs_of};
ghost use Rattle.cc_parse_tokens.specs.Gives.{Gives};
ghost use Rattle.cc_parse_files.specs.Parts as parts;

use crate::declaration::{has_typedef, inits};
use crate::statement::body;
use cc_base::Spot;
use cc_lex::Punct;
use cc_parse_expr::{Mode, declarator, specs, spot_or};
use cc_parse_tokens::{Cursor, Fault, TypedefNames};
use cc_tree::{Declaration, Declarator, External, FileTree, Function, Spec};
use sqlite_items::{Boxed, Items};
use std::alloc::Global;

/// A function behind its declarator: the body.
fn definition(
    alloc: Global,
    tokens: &mut Cursor<'_>,
    names: &mut TypedefNames,
    depth: u32,
    spot: Spot,
    specs: Items<Spec<Spot>>,
    declarator: Boxed<Declarator<Spot>>,
) -> Result<External<Spot>, Fault>
    ensures gives { Gives view_external (parts.definition_at depth names.old spot (specs_of specs) (view_declarator declarator) tokens.old) result tokens.new }
    ensures after { IfOk result (λ x. names.new ≡ typedefs.after_external (view_external x) names.old) }
{
    let note = spot_or(declarator.get(), spot);
    let body = body(alloc, tokens, names, depth)?;
    Ok(External::Function(Function {
        note,
        specs,
        declarator: declarator.into_inner(),
        body,
    }))
}

/// A declaration behind its first declarator: the initialiser, the other declarators and the semicolon.
fn outer(
    alloc: Global,
    tokens: &mut Cursor<'_>,
    names: &mut TypedefNames,
    depth: u32,
    spot: Spot,
    specs: Items<Spec<Spot>>,
    first: Boxed<Declarator<Spot>>,
) -> Result<External<Spot>, Fault>
    ensures gives { Gives view_external (parts.outer_at depth names.old spot (specs_of specs) (view_declarator first) tokens.old) result tokens.new }
    ensures after { IfOk result (λ x. names.new ≡ typedefs.after_external (view_external x) names.old) }
{
    let typedef = has_typedef(specs.as_slice());
    let inits = inits(alloc, tokens, names, depth, typedef, first)?;
    tokens.take(Punct::Semicolon)?;
    Ok(External::Declaration(Declaration {
        note: spot,
        specs,
        inits,
    }))
}

/// What stands behind the first declarator: the body of a function, or the rest of a declaration.
fn external_behind(
    alloc: Global,
    tokens: &mut Cursor<'_>,
    names: &mut TypedefNames,
    depth: u32,
    spot: Spot,
    specs: Items<Spec<Spot>>,
    declarator: Boxed<Declarator<Spot>>,
) -> Result<External<Spot>, Fault>
    ensures gives { Gives view_external (spec.external_behind depth names.old spot (specs_of specs) (view_declarator declarator) tokens.old) result tokens.new }
    ensures after { IfOk result (λ x. names.new ≡ typedefs.after_external (view_external x) names.old) }
{
    if tokens.next_is(Punct::LeftBrace) {
        definition(alloc, tokens, names, depth, spot, specs, declarator)
    } else {
        outer(alloc, tokens, names, depth, spot, specs, declarator)
    }
}

/// What stands behind the specifiers, where a declarator follows.
fn behind_specs(
    alloc: Global,
    tokens: &mut Cursor<'_>,
    names: &mut TypedefNames,
    depth: u32,
    spot: Spot,
    specs: Items<Spec<Spot>>,
) -> Result<External<Spot>, Fault>
    ensures gives { Gives view_external (parts.behind_specs depth names.old spot (specs_of specs) tokens.old) result tokens.new }
    ensures after { IfOk result (λ x. names.new ≡ typedefs.after_external (view_external x) names.old) }
{
    let first = declarator(alloc, tokens, names, depth, Mode::Named)?;
    external_behind(alloc, tokens, names, depth, spot, specs, first)
}

/// A declaration or a function, with the typedef names that it declares.
fn external(
    alloc: Global,
    tokens: &mut Cursor<'_>,
    names: &mut TypedefNames,
    depth: u32,
) -> Result<External<Spot>, Fault>
    ensures gives { Gives view_external (spec.external depth names.old tokens.old) result tokens.new }
    ensures after { IfOk result (λ x. names.new ≡ typedefs.after_external (view_external x) names.old) }
{
    let spot = tokens.spot();
    let specs = specs(alloc, tokens, names, depth)?;
    if tokens.next_is(Punct::Semicolon) {
        tokens.skip();
        return Ok(External::Declaration(Declaration {
            note: spot,
            specs,
            inits: Items::new(alloc),
        }));
    }
    behind_specs(alloc, tokens, names, depth, spot, specs)
}

/// Whether no token is left.
fn ended(tokens: &Cursor<'_>) -> bool
    ensures { result ≡ spec.ended tokens.now }
{
    tokens.len() == 0
}

/// Declarations and functions up to the end of the tokens.
fn externals(
    alloc: Global,
    tokens: &mut Cursor<'_>,
    names: &mut TypedefNames,
    depth: u32,
) -> Result<Items<External<Spot>>, Fault>
    ensures { Gives (map view_external) (spec.externals_by depth (suc (length tokens.old)) names.old tokens.old) result tokens.new }
{
    let mut found = Items::new(alloc);
    for _round in 0..tokens.len() + 1 {
        if ended(tokens) {
            return Ok(found);
        }
        let next = external(alloc, tokens, names, depth)?;
        found.push(next)?;
    }
    Err(Fault::Refused)
}

/// The file that the tokens are, no deeper than `depth` (C17 6.9).
///
/// `Refused` tells that they are none so shallow: the cursor stands where reading stopped.
#[tactic(auto, using(crate::proofs::ExternalRounds::reading_is))]
pub fn reading(alloc: Global, tokens: &mut Cursor<'_>, depth: u32) -> Result<FileTree<Spot>, Fault>
    ensures { Gives view_file (spec.reading depth tokens.old) result tokens.new }
{
    let mut names = TypedefNames::new(alloc);
    let externals = externals(alloc, tokens, &mut names, depth)?;
    Ok(FileTree { externals })
}
