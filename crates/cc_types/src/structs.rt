// The structs of a project, with their members.
ghost use Rattle.std.specs.Prelude.{◌≡◌, [], ◌∷◌, ◌++◌, slice_set, IfOk, OnOk};
ghost use Rattle.cc_types.specs.CTypes.{has_const};
ghost use Rattle.cc_types.specs.Shapes.{built, type_at, types_of};
ghost use Rattle.cc_types.specs.Measures as measures;
ghost use Rattle.cc_types.specs.Depths as depths;
ghost use Rattle.cc_types.specs.Structs as spec;

use crate::depth::Depth;
use crate::depths::Depths;
use crate::expr_type::ExprType;
use crate::measure::Measure;
use crate::shape::{Shape, TypeId};
use crate::table::TypeTable;
use cc_base::{List, Memory, Text};
use cc_tree::StructId;
use std::alloc::Global;
use std::marker::Model;

/// A member of a struct.
#[derive(Debug, Drop)]
pub struct Member {
    pub name: Text,
    pub kind: TypeId,
}

pub type MemberList = List<Member>;

/// What is known of a struct. One without members as yet measures nothing.
#[derive(Debug, Drop)]
pub struct StructEntry {
    pub is_tagged: bool,
    /// The number of the node of its first token.
    pub token: u32,
    pub members: MemberList,
    pub measure: Measure,
    pub depth: Depth,
}

/// The structs so far, by number. Each call of `add` makes one more, so that a struct without a tag is the same type as an
/// earlier one with the same members is for the caller to see; and whether a struct is complete is said once for all, so a
/// value of this type serves one file.
#[derive(Drop)]
pub struct Structs {
    entries: Vec<StructEntry>,
}

impl Model for Structs {
    ghost use Rattle.std.specs.Prelude.{List as Items};
    ghost use Rattle.cc_types.specs.declared.structs.StructEntry.{StructEntry};

    ghost Value = { Items StructEntry };

    ghost view = { λ s. s.entries.items };
}

impl Structs {
    /// No structs. Takes no memory.
    pub fn new(alloc: Global) -> Structs
        ensures { result ≡ [] }
    {
        Structs {
            entries: Vec::new(alloc),
        }
    }

    /// One struct more, which has no members as yet, by the number of the node of its first token.
    pub fn add(&mut self, alloc: Global, is_tagged: bool, token: u32) -> Result<StructId, Memory>
        ensures { IfOk result (λ id. (self.new, id) ≡ spec.added self.old is_tagged token) }
    {
        let number = self.entries.len();
        if number > u32::MAX as usize {
            return Err(Memory);
        }
        self.entries.push(StructEntry {
            is_tagged,
            token,
            members: List::new(alloc),
            measure: Measure::nothing(),
            depth: Depth::flat(1),
        })?;
        Ok(StructId(number as u32))
    }

    // One entry more.
    fn push(&mut self, entry: StructEntry) -> Result<(), Memory>
        ensures { OnOk result (self.new ≡ self.old ++ entry ∷ []) }
    {
        self.entries.push(entry)?;
        Ok(())
    }

    /// The same structs, none of which has its members as yet: with them the next file of the project begins. One without a
    /// tag keeps its depth, since the table may have types that are made of it: with the same members it is as deep inside
    /// pointers in each file, because members with a tag count 1 there.
    pub fn renewed(&self, alloc: Global) -> Result<Structs, Memory>
        ensures { IfOk result (λ structs. structs ≡ spec.renewed self.now) }
    {
        let mut structs = Structs::new(alloc);
        for entry in self.entries.as_slice() {
            structs.push(entry_renewed(alloc, entry))?;
        }
        Ok(structs)
    }

    // What is measured of a struct.
    fn kept(&self, id: StructId) -> Measure
        ensures { result ≡ (measures.entry_of self.now id).measure }
    {
        if (id.0 as usize) < self.entries.len() {
            self.entries[id.0 as usize].measure
        } else {
            Measure::nothing()
        }
    }

    // How deep a struct is, and how deep where it is reached through a pointer or a function type.
    pub(crate) fn depth_of_struct(&self, id: StructId) -> Depth
        ensures { result ≡ depths.struct_depth (measures.entry_of self.now id) }
    {
        let kept = self.kept_depth(id);
        if self.is_tagged(id) {
            kept.with_inside(1)
        } else {
            kept
        }
    }

    fn kept_depth(&self, id: StructId) -> Depth
        ensures { result ≡ (measures.entry_of self.now id).depth }
    {
        if (id.0 as usize) < self.entries.len() {
            self.entries[id.0 as usize].depth
        } else {
            Depth::flat(1)
        }
    }

    /// Whether a struct has its members. There is none past the last number.
    pub fn is_complete(&self, id: StructId) -> bool
        ensures { result ≡ spec.is_complete self.now id }
    {
        self.kept(id).is_complete
    }

    /// Whether a struct has a tag.
    pub fn is_tagged(&self, id: StructId) -> bool
        ensures { result ≡ (measures.entry_of self.now id).is_tagged }
    {
        (id.0 as usize) < self.entries.len() && self.entries[id.0 as usize].is_tagged
    }

    /// The number of the node of a struct's first token; 0 past the last struct.
    pub fn token(&self, id: StructId) -> u32
        ensures { result ≡ (measures.entry_of self.now id).token }
    {
        if (id.0 as usize) < self.entries.len() {
            self.entries[id.0 as usize].token
        } else {
            0
        }
    }

    /// The members of a struct, in order.
    pub fn members(&self, id: StructId) -> &[Member]
        ensures { result.now ≡ (measures.entry_of self.now id).members }
    {
        if (id.0 as usize) < self.entries.len() {
            self.entries[id.0 as usize].members.as_slice()
        } else {
            &[]
        }
    }

    /// The first member of this name: its place among the members, from 0, and its type.
    pub fn member(&self, id: StructId, name: &str) -> Option<(usize, TypeId)>
        ensures { result ≡ spec.member_named self.now id name.now }
    {
        first_named(self.members(id), name)
    }

    /// What is measured of a type, where these are the structs.
    pub fn measure(&self, table: &TypeTable, a: Shape) -> Measure
        ensures { result ≡ measures.measure_of self.now (built (types_of table.now) a) }
    {
        measured(self, table, a)
    }

    // What is measured of a struct with these members.
    fn members_measured(&self, table: &TypeTable, members: &[Member]) -> Measure
        ensures { result ≡ measures.members_measured (types_of table.now) self.now members.now }
    {
        let mut room = Measure::empty();
        for member in members {
            let shape = table.shape(member.kind);
            let is_const = table.is_const(ExprType::Plain(shape));
            room = room.joined(is_const, self.measure(table, shape));
        }
        room.ended()
    }

    // Gives a struct its members, if there is such a struct.
    fn put(&mut self, id: StructId, members: MemberList, measure: Measure, depth: Depth)
        ensures { self.new ≡ slice_set self.old id.0
            (spec.with_members (measures.entry_of self.old id) members measure depth) }
    {
        let is_tagged = self.is_tagged(id);
        let token = self.token(id);
        if (id.0 as usize) < self.entries.len() {
            self.entries[id.0 as usize] = StructEntry {
                is_tagged,
                token,
                members,
                measure,
                depth,
            };
        }
    }

    /// Gives a struct its members, in order (C17 6.7.2.1). It stays as it is where it is complete already, or where the
    /// type of a member isn't complete.
    ///
    /// The depth that it keeps comes from `depths`, which is to have caught up with the table.
    pub fn complete(
        &mut self,
        table: &TypeTable,
        depths: &Depths,
        id: StructId,
        members: MemberList,
    )
        ensures { self.new ≡ spec.completed table.now self.old depths.now id members }
    {
        let measure = self.members_measured(table, members.as_slice());
        let depth = depths.of_members(table, self, members.as_slice());
        if !self.is_complete(id) && measure.is_complete {
            self.put(id, members, measure, depth);
        }
    }
}

// What is known of a struct at the beginning of another file.
fn entry_renewed(alloc: Global, entry: &StructEntry) -> StructEntry
    ensures { result ≡ spec.entry_renewed entry.now }
{
    StructEntry {
        is_tagged: entry.is_tagged,
        token: entry.token,
        members: List::new(alloc),
        measure: Measure::nothing(),
        depth: depth_renewed(entry.is_tagged, entry.depth),
    }
}

fn depth_renewed(is_tagged: bool, depth: Depth) -> Depth
    ensures { result ≡ spec.depth_renewed is_tagged depth }
{
    if is_tagged { Depth::flat(1) } else { depth }
}

// The first member of this name, with its place.
fn first_named(members: &[Member], name: &str) -> Option<(usize, TypeId)>
    ensures { result ≡ spec.member_from 0 members.now name.now }
{
    for (place, member) in members.iter().enumerate() {
        if member.name.as_str() == name {
            return Some((place, member.kind));
        }
    }
    None
}

// What is measured of a type. It goes as deep as arrays stand in one another.
fn measured(structs: &Structs, table: &TypeTable, a: Shape) -> Measure
    ensures { result ≡ measures.measure_of structs.now (built (types_of table.now) a) }
{
    match a {
        Shape::Array(is_const, element, length) => {
            let one = measured(structs, table, table.shape(element));
            one.array(is_const, length)
        }
        Shape::Struct(_, id) => structs.kept(id),
        Shape::Integer(_, kind) => Measure::integer(kind),
        Shape::Pointer(_, _) => Measure::pointer(),
        Shape::Void(_) | Shape::Function(_) | Shape::Takes(_, _) => Measure::nothing(),
    }
}
