// Numbers for lists of members.
ghost use Rattle.std.specs.Prelude.{◌≡◌, IfOk};
ghost use Rattle.cc_types.specs.MemberLists as spec;

use crate::links::{Link, Links};
use crate::structs::Member;
use crate::text_numbers::TextNumbers;
use cc_base::Memory;
use std::alloc::Global;

/// The lists of members that were asked for, each with a number: two lists have one number exactly where they have the
/// same names with the same types in the same order.
#[derive(Drop)]
pub struct MemberLists {
    pub names: TextNumbers,
    pub links: Links,
}

impl MemberLists {
    /// No lists. Takes no memory.
    pub fn new(alloc: Global) -> MemberLists
        ensures { result ≡ spec.no_lists }
    {
        MemberLists {
            names: TextNumbers::new(alloc),
            links: Links::new(alloc),
        }
    }

    // The number of a list with one member more at its end.
    fn longer(&mut self, alloc: Global, before: u32, member: &Member) -> Result<u32, Memory>
        ensures { IfOk result (λ n. (self.new, n) ≡ spec.longer self.old before member.now) }
    {
        let name = self.names.number(alloc, member.name.as_str())?;
        let link = Link {
            before,
            name,
            kind: member.kind,
        };
        let number = self.links.number(link)?;
        Ok(number)
    }

    /// The number of this list, in time linear in it.
    pub fn number(&mut self, alloc: Global, members: &[Member]) -> Result<u32, Memory>
        ensures { IfOk result (λ n. (self.new, n) ≡ spec.numbered self.old members.now) }
    {
        let mut number = 0;
        for member in members {
            number = self.longer(alloc, number, member)?;
        }
        Ok(number)
    }
}
