// The checked files of a project.
ghost use Rattle.std.specs.Prelude.{◌≡◌, ◌≤◌, ◌<◌, ◌^◌, All, IfErr, IfSome, OnOk, length};
ghost use Rattle.cc_prep.specs.Faults.{NoneFalls, counts_of};
ghost use Rattle.cc_front.specs.Faults.{IsCaused, IsFileCaused, IsFileTold, IsNoExpansion, IsToldIn};

use crate::fault::{Fault, FileFault, FrontFault};
use crate::tree::tree_of;
use cc_arena::Arena;
use cc_base::{Bytes, List};
use cc_check::{CheckFault, Checked, check_unit};
use cc_io::Shelf;
use cc_project::Project;
use cc_symbols::{CheckedUnit, Known};
use cc_tree::FileTree;
use cc_tree_notes::Counted;
use std::alloc::Global;

/// What is known once all files are checked.
#[derive(Drop)]
pub(crate) struct Units {
    pub(crate) known: Known,
    /// What is kept of each file, in the order of the project.
    pub(crate) units: List<CheckedUnit>,
}

// Checks the numbered tree of the file of this number.
fn check_tree(
    alloc: Global,
    file: u32,
    tree: &FileTree<Counted>,
    known: Known,
    arena: &mut Arena,
) -> Result<Checked, FileFault>
    ensures { IfErr result IsNoExpansion }
{
    match check_unit(alloc, tree, file, known, arena) {
        Ok(checked) => Ok(checked),
        Err(CheckFault::Offence(offence)) => Err(FileFault::At {
            spot: offence.spot,
            fault: Fault::Offence(offence.rule),
        }),
        Err(CheckFault::Memory) => Err(FileFault::Memory),
    }
}

// Reads and checks the file of this number. Its tree is gone afterwards.
fn check_file<S: Shelf>(
    alloc: Global,
    shelf: &mut S,
    file: u32,
    name: &str,
    bytes: &[u8],
    next: &mut u32,
    known: Known,
    arena: &mut Arena,
) -> Result<Checked, FileFault>
    requires small { length bytes.now ≤ 1048576 }
    requires next { next.old < 2 ^ 30 }
    ensures next { OnOk result (next.new < 2 ^ 30) }
    ensures keeps { S.files shelf.new ≡ S.files shelf.old }
    ensures none_falls { NoneFalls (counts_of (S.faults shelf.old) (S.misses shelf.old) (S.longs shelf.old))
        (counts_of (S.faults shelf.new) (S.misses shelf.new) (S.longs shelf.new)) }
    ensures caused { IfErr result (IsFileCaused (counts_of (S.faults shelf.old) (S.misses shelf.old) (S.longs shelf.old))
        (counts_of (S.faults shelf.new) (S.misses shelf.new) (S.longs shelf.new))) }
    ensures told { IfSome (S.files shelf.old) (λ held. IfErr result (IsFileTold held bytes.now)) }
{
    match tree_of(alloc, shelf, name, bytes, next) {
        Ok(tree) => check_tree(alloc, file, &tree, known, arena),
        Err(fault) => Err(fault),
    }
}

// The name of the file of this number.
fn name_of(project: &Project, file: u32) -> &str {
    match project.files.as_slice().get(file as usize) {
        Some(file) => file.name.as_str(),
        None => "",
    }
}

/// Checks the files in their order, up to the first that is refused. Their nodes go into the arena.
pub(crate) fn check_files<S: Shelf>(
    alloc: Global,
    shelf: &mut S,
    project: &Project,
    files: &List<Bytes>,
    arena: &mut Arena,
) -> Result<Units, FrontFault>
    requires few { length files.now ≤ 64 }
    requires small { All (λ bytes. length bytes ≤ 1048576) files.now }
    ensures keeps { S.files shelf.new ≡ S.files shelf.old }
    ensures none_falls { NoneFalls (counts_of (S.faults shelf.old) (S.misses shelf.old) (S.longs shelf.old))
        (counts_of (S.faults shelf.new) (S.misses shelf.new) (S.longs shelf.new)) }
    ensures caused { IfErr result (IsCaused (counts_of (S.faults shelf.old) (S.misses shelf.old) (S.longs shelf.old))
        (counts_of (S.faults shelf.new) (S.misses shelf.new) (S.longs shelf.new))) }
    ensures told { IfSome (S.files shelf.old) (λ held. IfErr result (IsToldIn held files.now)) }
{
    let mut known = Known::new(alloc)?;
    let mut units = List::new(alloc);
    let mut next = 0;
    for file in 0..files.len() as u32 {
        let bytes = files.get(file as u64).bytes();
        let name = name_of(project, file);
        match check_file(alloc, shelf, file, name, bytes, &mut next, known, arena) {
            Ok(checked) => {
                known = checked.known;
                match units.push(checked.unit) {
                    Ok(()) => {}
                    Err(_) => return Err(FrontFault::Memory),
                }
            }
            Err(fault) => return Err(fault.in_file(file)),
        }
    }
    Ok(Units { known, units })
}
