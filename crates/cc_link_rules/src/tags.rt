// Structs with a tag have the same members in all files.
ghost use Rattle.std.specs.Prelude.{◌≡◌, IfOk};
ghost use Rattle.cc_link_rules.specs.Tags as spec;

use crate::fault::{Fault, broken_if, next_file, noted};
use crate::rule;
use cc_base::{FileId, Memory};
use cc_symbols::{CheckedUnit, Completed, Slots};
use cc_tree::StructId;
use cc_types::{Member, MemberLists, Structs};
use std::alloc::Global;

/// The lists of members so far, and by struct the list that it first had.
#[derive(Drop)]
pub struct Tags {
    pub lists: MemberLists,
    pub firsts: Slots<Option<u32>>,
}

impl Tags {
    /// No structs. Takes no memory.
    pub fn new(alloc: Global) -> Tags
        ensures { result ≡ spec.no_tags }
    {
        Tags {
            lists: MemberLists::new(alloc),
            firsts: Slots::new(alloc),
        }
    }

    // The list that a struct first had.
    fn first(&self, id: StructId) -> Option<u32>
        ensures { result ≡ spec.first_of self.now id }
    {
        match self.firsts.get(id.0) {
            Some(first) => first,
            None => None,
        }
    }

    // A struct gets the list of this number: the rule that this breaks.
    fn complete(&mut self, id: StructId, list: u32) -> Result<Option<u8>, Memory>
        ensures { IfOk result (λ broken. (self.new, broken) ≡ spec.listed id list self.old) }
    {
        match self.first(id) {
            None => {
                self.firsts.put_far(id.0, Some(list), None)?;
                Ok(None)
            }
            Some(first) => Ok(broken_if(first != list, rule::SAME_MEMBERS)),
        }
    }

    // A struct gets these members: the rule that this breaks.
    fn tell(
        &mut self,
        alloc: Global,
        id: StructId,
        members: &[Member],
    ) -> Result<Option<u8>, Memory>
        ensures { IfOk result (λ broken. (self.new, broken) ≡ spec.told id members.now self.old) }
    {
        let list = self.lists.number(alloc, members)?;
        self.complete(id, list)
    }
}

// A struct specifier with members of a file.
fn link_one(
    alloc: Global,
    tags: &mut Tags,
    least: Option<Fault>,
    file: FileId,
    structs: &Structs,
    completed: &Completed,
) -> Result<Option<Fault>, Memory>
    ensures { IfOk result (λ found.
        (tags.new, found) ≡ spec.tag_one file structs.now completed.now (tags.old, least)) }
{
    if structs.is_tagged(completed.id) {
        let broken = tags.tell(alloc, completed.id, structs.members(completed.id))?;
        Ok(noted(least, broken, file, completed.spot))
    } else {
        Ok(least)
    }
}

// The struct specifiers with members of a file.
fn link_file(
    alloc: Global,
    tags: &mut Tags,
    least: Option<Fault>,
    file: FileId,
    unit: &CheckedUnit,
) -> Result<Option<Fault>, Memory>
    ensures { IfOk result (λ found.
        (tags.new, found) ≡ spec.tag_file file unit.now.structs unit.now.completed (tags.old, least)) }
{
    let mut so_far = least;
    for completed in unit.completed.as_slice() {
        so_far = link_one(alloc, tags, so_far, file, &unit.structs, completed)?;
    }
    Ok(so_far)
}

/// Goes over the structs of all files, in project order. The answer is the least fault of K4.
pub fn link_tags(
    alloc: Global,
    tags: &mut Tags,
    units: &[CheckedUnit],
) -> Result<Option<Fault>, Memory>
    ensures { IfOk result (λ least. (tags.new, least) ≡ spec.tag_files units.now tags.old) }
{
    let mut least = None;
    let mut file = FileId(0);
    for unit in units {
        least = link_file(alloc, tags, least, file, unit)?;
        file = next_file(file);
    }
    Ok(least)
}
