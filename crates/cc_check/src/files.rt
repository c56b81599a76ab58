// Files.

use crate::functions::function;
use crate::statements::{Walk, placed};
use crate::storage::Region;
use cc_base::Memory;
use cc_tree::{External, FileTree};
use cc_tree_notes::Counted;
use std::alloc::Global;

// What stands in a file.
fn external<'a>(
    alloc: Global,
    walk: &mut Walk<'a>,
    x: &'a External<Counted>,
) -> Result<(), Memory> {
    match x {
        External::Declaration(d) => placed(alloc, &mut walk.checker, Region::File, d),
        External::Function(f) => function(alloc, walk, f),
    }
}

/// All that stands in a file, in order.
pub fn walk_file<'a>(
    alloc: Global,
    walk: &mut Walk<'a>,
    file: &'a FileTree<Counted>,
) -> Result<(), Memory> {
    for x in file.externals.as_slice() {
        external(alloc, walk, x)?;
    }
    Ok(())
}
