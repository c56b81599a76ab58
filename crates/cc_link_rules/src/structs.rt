// The structs of the whole project.
ghost use Rattle.std.specs.Prelude.{◌≡◌, IfOk, OnOk};
ghost use Rattle.cc_link_rules.specs.Wholes as spec;

use cc_base::{List, Memory};
use cc_symbols::{CheckedUnit, Completed};
use cc_tree_copies::copied_text;
use cc_types::{Depths, Member, MemberList, Structs, TypeTable};
use std::alloc::Global;

fn copied_member(alloc: Global, member: &Member) -> Result<Member, Memory>
    ensures { IfOk result (λ copy. copy ≡ member.now) }
{
    let name = copied_text(alloc, &member.name)?;
    let kind = member.kind;
    Ok(Member { name, kind })
}

fn copied_members(alloc: Global, members: &[Member]) -> Result<MemberList, Memory>
    ensures { IfOk result (λ copy. copy ≡ members.now) }
{
    let mut copy = List::new(alloc);
    for member in members {
        copy.push(copied_member(alloc, member)?)?;
    }
    Ok(copy)
}

// A struct gets the members that it has in a file.
fn complete(
    alloc: Global,
    whole: &mut Structs,
    types: &TypeTable,
    structs: &Structs,
    completed: &Completed,
) -> Result<(), Memory>
    ensures { OnOk result (whole.new ≡ spec.completed_one types.now structs.now completed.now whole.old) }
{
    let members = copied_members(alloc, structs.members(completed.id))?;
    whole.complete(types, &Depths::new(alloc), completed.id, members);
    Ok(())
}

// The structs of a file.
fn complete_file(
    alloc: Global,
    whole: &mut Structs,
    types: &TypeTable,
    unit: &CheckedUnit,
) -> Result<(), Memory>
    ensures { OnOk result (whole.new
        ≡ spec.completed_file types.now unit.now.structs unit.now.completed whole.old) }
{
    for completed in unit.completed.as_slice() {
        complete(alloc, whole, types, &unit.structs, completed)?;
    }
    Ok(())
}

fn complete_files(
    alloc: Global,
    whole: &mut Structs,
    types: &TypeTable,
    units: &[CheckedUnit],
) -> Result<(), Memory>
    ensures { OnOk result (whole.new ≡ spec.completed_files types.now units.now whole.old) }
{
    for unit in units {
        complete_file(alloc, whole, types, unit)?;
    }
    Ok(())
}

/// The structs of a project: those of all files, each with the members that it has in the first file in which it is
/// complete. Nothing is said of the depths that they keep.
pub fn whole_structs(
    alloc: Global,
    types: &TypeTable,
    structs: &Structs,
    units: &[CheckedUnit],
) -> Result<Structs, Memory>
    ensures { IfOk result (λ whole. whole ≡ spec.whole types.now structs.now units.now) }
{
    let mut whole = structs.renewed(alloc)?;
    complete_files(alloc, &mut whole, types, units)?;
    Ok(whole)
}
