// Files.
ghost use Rattle.std.specs.Prelude.{◌≡◌, OnOk, map};
ghost use Rattle.cc_tree.specs.Views.{view_external, view_file};
ghost use Rattle.cc_arena_fill.specs.Filling as spec;
ghost use Rattle.cc_arena_fill.specs.Holding.{HoldsIfNumbered};
ghost use Rattle.cc_arena_fill.specs.Definitions.{definition_of};

use crate::declaration::fill_declaration;
use crate::expr::{fill_declarator, fill_specs, put};
use crate::numbers::{block_number, declaration_number, declarator_number};
use crate::stmt::fill_block;
use cc_arena::{Arena, Node};
use cc_base::Memory;
use cc_tree::{External, FileTree, Function};
use cc_tree_notes::Counted;

/// Puts the nodes of a file at the end of the arena, in the order of their numbers, each with the number of the node that it
/// is a part of. Where the file is numbered from the arena's count on, each node stands at its number. Fails where memory or
/// numbers are wanting; the arena then has some of the nodes.
pub fn fill_file(arena: &mut Arena, file: &FileTree<Counted>) -> Result<(), Memory>
    ensures filled { OnOk result (arena.new ≡ spec.put_file (view_file file.now) arena.old) }
    ensures held { OnOk result (HoldsIfNumbered arena.old arena.new (view_file file.now)) }
{
    fill_externals(arena, file.externals.as_slice())?;
    Ok(())
}

fn fill_externals(arena: &mut Arena, xs: &[External<Counted>]) -> Result<(), Memory>
    ensures { OnOk result (arena.new ≡ spec.put_file (map view_external xs.now) arena.old) }
{
    for x in xs {
        fill_external(arena, x)?;
    }
    Ok(())
}

fn fill_external(arena: &mut Arena, x: &External<Counted>) -> Result<(), Memory>
    ensures { OnOk result (arena.new ≡ spec.put_external (view_external x.now) arena.old) }
{
    match x {
        External::Declaration(d) => fill_declaration(arena, declaration_number(d), d),
        External::Function(f) => fill_definition(arena, f),
    }
}

fn fill_definition(arena: &mut Arena, f: &Function<Counted>) -> Result<(), Memory>
    ensures { OnOk result (arena.new ≡ spec.put_external (definition_of f.now) arena.old) }
{
    let up = f.note.number;
    let node = Node::Definition(declarator_number(&f.declarator), block_number(&f.body));
    put(arena, up, &f.note, node)?;
    fill_specs(arena, up, f.specs.as_slice())?;
    fill_declarator(arena, up, None, &f.declarator)?;
    fill_block(arena, up, &f.body)
}
