// Numbers for lists that differ in their last item.
ghost use Rattle.std.specs.Prelude.{◌≡◌, [], IfOk};
ghost use Rattle.cc_types.specs.MemberLists as spec;

use crate::shape::TypeId;
use cc_base::Memory;
use indexmap::IndexSet;
use std::alloc::Global;
use std::marker::Model;

/// A list of members by its last one, with the number of the list of those before it.
#[derive(Clone, Copy, PartialEq, Eq, Hash)]
pub struct Link {
    pub before: u32,
    /// The number of the member's name.
    pub name: u32,
    pub kind: TypeId,
}

/// Lists of members, each with a number: 0 for the empty one, and from 1 on as they come. A contract sees the list of their
/// links.
#[derive(Drop)]
pub struct Links {
    links: IndexSet<Link>,
}

impl Model for Links {
    ghost use Rattle.std.specs.Prelude.{List};
    ghost use Rattle.cc_types.specs.declared.links.Link.{Link};

    ghost Value = { List Link };

    ghost view = { λ l. l.links.keys };
}

impl Links {
    /// The empty list alone. Takes no memory.
    pub fn new(alloc: Global) -> Links
        ensures { result ≡ [] }
    {
        Links {
            links: IndexSet::new(alloc),
        }
    }

    /// The number of the list of this link, which has one from then on.
    pub fn number(&mut self, link: Link) -> Result<u32, Memory>
        ensures { IfOk result (λ n. (self.new, n) ≡ spec.link_numbered self.old link) }
    {
        if self.links.len() >= u32::MAX as usize {
            return Err(Memory);
        }
        let (index, _) = self.links.insert_full(link)?;
        Ok(index as u32 + 1)
    }
}
