// Members of structs (C17 6.7.2.1).
ghost use Rattle.std.specs.Prelude.{◌≡◌, IfOk, OnOk};
ghost use Rattle.cc_declare.specs.Naming.{name_part};
ghost use Rattle.cc_declare.specs.Members as spec;

use crate::checker::Checker;
use crate::names::Named;
use crate::shaped::Formed;
use cc_base::{List, Memory, Text};
use cc_symbols::{Completed, rule};
use cc_tree::StructId;
use cc_tree_notes::Counted;
use cc_types::{Member, MemberList, TypeId};
use std::alloc::Global;

/// The members of a struct so far.
#[derive(Drop)]
pub struct Fields {
    pub list: MemberList,
    /// Whether each of them has a type. One without isn't in the list.
    pub are_typed: bool,
}

impl Fields {
    /// None. Takes no memory.
    pub fn new(alloc: Global) -> Fields
        ensures { result ≡ spec.no_fields }
    {
        Fields {
            list: List::new(alloc),
            are_typed: true,
        }
    }

    // One member more, if it has a type.
    fn add(&mut self, alloc: Global, name: &str, kind: Option<TypeId>) -> Result<(), Memory>
        ensures { OnOk result (self.new ≡ spec.field_added self.old name.now kind) }
    {
        match kind {
            Some(kind) => {
                let name = Text::new(String::from_str(alloc, name)?);
                self.list.push(Member { name, kind })
            }
            None => {
                self.are_typed = false;
                Ok(())
            }
        }
    }
}

impl<'a> Checker<'a> {
    /// Begins the members of a struct.
    pub fn enter_members(&mut self) -> Result<(), Memory>
        ensures { OnOk result (self.new ≡ spec.members_entered self.old) }
    {
        self.members.enter()
    }

    /// Ends the members of a struct.
    pub fn leave_members(&mut self)
        ensures { self.new ≡ spec.members_left self.old }
    {
        self.members.leave();
    }

    // A member's name, which has to be new in its struct (C18), and its type.
    fn member_named(&mut self, named: Named<'a>, formed: Formed) -> Result<(), Memory>
        ensures { OnOk result (self.new ≡ spec.member_named self.old named.entry.note named.entry.name.now formed) }
    {
        let repeats = formed.is_judged && self.members.is_here(named.name);
        self.offend_if(repeats, named.note, rule::NEW_NAME);
        self.symbols.kinds.put(named.note.number, formed.kind);
        self.members.declare(named.name, named.note.number)
    }

    // A member by its name (C18, C19, C20).
    fn member_of(
        &mut self,
        alloc: Global,
        fields: &mut Fields,
        named: Named<'a>,
        formed: Formed,
    ) -> Result<(), Memory>
        ensures { OnOk result ((self.new, fields.new)
            ≡ spec.member_of self.old fields.old named.entry.note named.entry.name.now formed) }
    {
        self.object(named.note, formed, false);
        self.member_named(named, formed)?;
        fields.add(alloc, named.name, formed.kind)
    }

    /// A member, by its declarator.
    pub fn member(
        &mut self,
        alloc: Global,
        fields: &mut Fields,
        named: Option<Named<'a>>,
        formed: Formed,
    ) -> Result<(), Memory>
        ensures { OnOk result ((self.new, fields.new) ≡ spec.member_made (name_part named.entry) formed self.old fields.old) }
    {
        match named {
            Some(named) => self.member_of(alloc, fields, named, formed),
            None => Ok(()),
        }
    }

    // The struct that has these members: of those without a tag the first with the same ones.
    fn same_struct(
        &mut self,
        alloc: Global,
        id: StructId,
        fields: &Fields,
    ) -> Result<StructId, Memory>
        ensures { IfOk result (λ same. (self.new, same) ≡ spec.same_struct self.old id fields.now) }
    {
        if self.symbols.structs.is_tagged(id) {
            Ok(id)
        } else {
            self.symbols.same_unnamed(alloc, id, fields.list.as_slice())
        }
    }

    // A struct has its members, which all have types.
    fn complete(
        &mut self,
        alloc: Global,
        note: Counted,
        id: StructId,
        fields: Fields,
    ) -> Result<Option<StructId>, Memory>
        ensures { IfOk result (λ same. (self.new, same) ≡ spec.struct_completed self.old note id fields) }
    {
        let id = self.same_struct(alloc, id, &fields)?;
        self.symbols
            .depths
            .catch_up(&self.symbols.types, &self.symbols.structs)?;
        self.symbols
            .structs
            .complete(&self.symbols.types, &self.symbols.depths, id, fields.list);
        self.completed.push(Completed {
            id,
            spot: note.spot,
        })?;
        Ok(Some(id))
    }

    /// The struct of a specifier with these members. Where one of them has no type, it has none.
    pub fn struct_with(
        &mut self,
        alloc: Global,
        note: Counted,
        id: Option<StructId>,
        fields: Fields,
    ) -> Result<Option<StructId>, Memory>
        ensures { IfOk result (λ same. (self.new, same) ≡ spec.struct_with self.old note id fields) }
    {
        match id {
            Some(id) => {
                if fields.are_typed {
                    self.complete(alloc, note, id, fields)
                } else {
                    Ok(None)
                }
            }
            None => Ok(None),
        }
    }
}
