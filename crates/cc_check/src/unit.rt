// A whole file.

use crate::files::walk_file;
use crate::statements::{CaseValue, Walk};
use cc_arena::Arena;
use cc_arena_fill::fill_file;
use cc_arena_rules::offence_in;
use cc_base::{List, Memory};
use cc_declare::Checker;
use cc_symbols::{CheckedUnit, Known, Offence, lesser};
use cc_tree::FileTree;
use cc_tree_notes::Counted;
use std::alloc::Global;
use std::mem;

/// Why a file isn't checked.
#[derive(Clone, Copy, Debug, PartialEq, Eq)]
pub enum CheckFault {
    /// The first rule that the file breaks, by place and then by rule.
    Offence(Offence),
    Memory,
}

/// What is known after a file that breaks no rule.
#[derive(Drop)]
pub struct Checked {
    /// What is known of the files so far.
    pub known: Known,
    /// What is kept of the file for linking.
    pub unit: CheckedUnit,
    /// The values of its labels, in the order of their nodes.
    pub cases: List<CaseValue>,
}

impl From<Memory> for CheckFault {
    fn from(_: Memory) -> CheckFault {
        CheckFault::Memory
    }
}

// The nodes of a file in the arena: the number of the first, and the number after the last.
#[derive(Clone, Copy)]
struct Stretch {
    start: u32,
    end: u32,
}

fn filled(arena: &mut Arena, file: &FileTree<Counted>) -> Result<Stretch, Memory> {
    let start = arena.count()?;
    fill_file(arena, file)?;
    let end = arena.count()?;
    Ok(Stretch { start, end })
}

// What is known before a file: places for its nodes, and no struct has members yet.
fn begun(alloc: Global, known: Known, stretch: Stretch) -> Result<Known, Memory> {
    let mut known = known;
    known.symbols.renew_for_file(alloc)?;
    known.grow(stretch.end)?;
    Ok(known)
}

// What is kept of a file that was walked over.
fn kept<'a>(alloc: Global, walk: Walk<'a>, stretch: Stretch) -> Result<Checked, Memory> {
    let Walk { checker, cases } = walk;
    let Checker {
        symbols,
        found,
        outers,
        completed,
        ..
    } = checker;
    let mut symbols = symbols;
    let structs = symbols.structs.renewed(alloc)?;
    let structs = mem::replace(&mut symbols.structs, structs);
    Ok(Checked {
        known: Known { symbols, found },
        unit: CheckedUnit {
            start: stretch.start,
            end: stretch.end,
            outers,
            completed,
            structs,
        },
        cases,
    })
}

// The walk over a file, from its beginning to its end.
fn walked<'a>(
    alloc: Global,
    file: &'a FileTree<Counted>,
    file_number: u32,
    known: Known,
) -> Result<Walk<'a>, Memory> {
    let mut walk = Walk {
        checker: Checker::new(alloc, known, file_number),
        cases: List::new(alloc),
    };
    walk_file(alloc, &mut walk, file)?;
    Ok(walk)
}

// The least offence of the walk and of the rules that are asked of the file's stretch of the arena.
fn least<'a>(
    alloc: Global,
    arena: &Arena,
    walk: &Walk<'a>,
    stretch: Stretch,
) -> Result<Option<Offence>, Memory> {
    let symbols = &walk.checker.symbols;
    let found = &walk.checker.found;
    let around = offence_in(alloc, arena, symbols, found, stretch.start, stretch.end)?;
    Ok(lesser(found.least, around))
}

// What is kept of a walk, or its least offence.
fn answered<'a>(
    alloc: Global,
    walk: Walk<'a>,
    stretch: Stretch,
    least: Option<Offence>,
) -> Result<Checked, CheckFault> {
    match least {
        Some(offence) => Err(CheckFault::Offence(offence)),
        None => match kept(alloc, walk, stretch) {
            Ok(checked) => Ok(checked),
            Err(_) => Err(CheckFault::Memory),
        },
    }
}

// What a walk over a file leaves, judged.
fn judged<'a>(
    alloc: Global,
    arena: &Arena,
    walk: Walk<'a>,
    stretch: Stretch,
) -> Result<Checked, CheckFault> {
    match least(alloc, arena, &walk, stretch) {
        Ok(least) => answered(alloc, walk, stretch, least),
        Err(_) => Err(CheckFault::Memory),
    }
}

// The walk over a file whose nodes are in the arena.
fn begun_walk<'a>(
    alloc: Global,
    file: &'a FileTree<Counted>,
    file_number: u32,
    known: Known,
    stretch: Stretch,
) -> Result<Walk<'a>, Memory> {
    let known = begun(alloc, known, stretch)?;
    walked(alloc, file, file_number, known)
}

/// The rules C15 to C52 over a file, whose nodes are numbered from the arena's count on.
///
/// The answer is the first rule that is broken, by place and then by rule; else what is known of the files so far and of
/// this one, and the arena has its nodes. `known` is what earlier files left; none of them breaks a rule. An error but an
/// offence is want of memory.
pub fn check_unit(
    alloc: Global,
    file: &FileTree<Counted>,
    file_number: u32,
    known: Known,
    arena: &mut Arena,
) -> Result<Checked, CheckFault> {
    let stretch = match filled(arena, file) {
        Ok(stretch) => stretch,
        Err(_) => return Err(CheckFault::Memory),
    };
    match begun_walk(alloc, file, file_number, known, stretch) {
        Ok(walk) => judged(alloc, arena, walk, stretch),
        Err(_) => Err(CheckFault::Memory),
    }
}
