// Numbers for files.
ghost use Rattle.std.specs.Prelude.{◌≡◌, ◌+◌, ◌<◌, ◌^◌, map, IfOk, OnOk};
ghost use Rattle.cc_tree.specs.Nodes as nodes;
ghost use Rattle.cc_tree.specs.Renoted.{renoted_file};
ghost use Rattle.cc_tree.specs.Views.{view_external, view_file};
ghost use Rattle.cc_tree_notes.specs.Files.{numbered_unit};
ghost use Rattle.cc_tree_notes.specs.Numbering as spec;
ghost use Rattle.cc_tree_notes.specs.Numbering.{spot_of};

use crate::declaration::number_declaration;
use crate::expr::{boxed_declarator, number_specs};
use crate::note::Counted;
use crate::stmt::number_block;
use cc_base::{Memory, Spot};
use cc_tree::{External, FileTree, Function, Unit};
use sqlite_items::Items;
use std::alloc::Global;

/// The file with a number in each node, the first of which is `next`, which is then the number after the last. A node comes
/// before its parts, and its parts come from left to right. Without the numbers it is the file as it was. Fails where memory
/// is wanting; `next` is then any number.
pub fn number_file(alloc: Global, file: &Unit, next: &mut u32) -> Result<FileTree<Counted>, Memory>
    requires { next.old + nodes.file_nodes (view_file file.now) < 2 ^ 32 }
    ensures tree { IfOk result (λ r. (view_file r, next.new) ≡ numbered_unit file.now next.old) }
    ensures next { OnOk result (next.new ≡ next.old + nodes.file_nodes (view_file file.now)) }
    ensures same { IfOk result (λ r. renoted_file spot_of (view_file r) ≡ view_file file.now) }
{
    let externals = number_externals(alloc, file.externals.as_slice(), next)?;
    Ok(FileTree { externals })
}

fn number_externals(
    alloc: Global,
    xs: &[External<Spot>],
    next: &mut u32,
) -> Result<Items<External<Counted>>, Memory>
    requires { next.old + nodes.file_nodes (map view_external xs.now) < 2 ^ 32 }
    ensures tree { IfOk result (λ r. (map view_external r, next.new) ≡ spec.numbered_file (map view_external xs.now) next.old) }
    ensures next { OnOk result (next.new ≡ next.old + nodes.file_nodes (map view_external xs.now)) }
{
    let mut numbered = Items::new(alloc);
    for x in xs {
        numbered.push(number_external(alloc, x, next)?)?;
    }
    Ok(numbered)
}

fn number_external(
    alloc: Global,
    x: &External<Spot>,
    next: &mut u32,
) -> Result<External<Counted>, Memory>
    requires { next.old + nodes.external_nodes (view_external x.now) < 2 ^ 32 }
    ensures tree { IfOk result (λ r. (view_external r, next.new) ≡ spec.numbered_external (view_external x.now) next.old) }
    ensures next { OnOk result (next.new ≡ next.old + nodes.external_nodes (view_external x.now)) }
{
    match x {
        External::Declaration(d) => Ok(External::Declaration(number_declaration(alloc, d, next)?)),
        External::Function(f) => {
            let note = Counted::new(f.note, next);
            let specs = number_specs(alloc, f.specs.as_slice(), next)?;
            let declarator = boxed_declarator(alloc, &f.declarator, next)?;
            let body = number_block(alloc, &f.body, next)?;
            Ok(External::Function(Function {
                note,
                specs,
                declarator: declarator.into_inner(),
                body,
            }))
        }
    }
}
