// The depths of the types of a table.
ghost use Rattle.std.specs.Prelude.{◌≡◌, [], ◌∷◌, ◌++◌, length, OnOk};
ghost use Rattle.cc_types.specs.Depths as spec;
ghost use Rattle.cc_types.specs.Interning as interning;

use crate::depth::{Depth, DepthItem, deeper};
use crate::measure::larger;
use crate::shape::{Shape, TypeId};
use crate::structs::{Member, Structs};
use crate::table::TypeTable;
use cc_base::Memory;
use std::alloc::Global;
use std::marker::Model;

/// What is listed of the depths of the first types of a table, so that no type is gone through twice.
#[derive(Drop)]
pub struct Depths {
    items: Vec<DepthItem>,
}

impl Model for Depths {
    ghost use Rattle.std.specs.Prelude.{List};
    ghost use Rattle.cc_types.specs.declared.depth.DepthItem.{DepthItem};

    ghost Value = { List DepthItem };

    ghost view = { λ d. d.items.items };
}

impl Depths {
    /// Nothing listed. Takes no memory.
    pub fn new(alloc: Global) -> Depths
        ensures { result ≡ [] }
    {
        Depths {
            items: Vec::new(alloc),
        }
    }

    // What is listed of a type; for one that isn't listed what holds of void.
    fn item(&self, id: TypeId) -> DepthItem
        ensures { result ≡ spec.item_at self.now id }
    {
        if (id.0 as usize) < self.items.len() {
            self.items[id.0 as usize]
        } else {
            DepthItem {
                inside: 1,
                levels: 0,
                base: Shape::Void(false),
            }
        }
    }

    // How deep a shape is where it is reached through a pointer or a function type.
    fn inside(&self, structs: &Structs, a: Shape) -> u64
        ensures { result ≡ spec.inside_in structs.now self.now a }
    {
        match a {
            Shape::Pointer(_, t) | Shape::Array(_, t, _) | Shape::Function(t) => {
                deeper(self.item(t).inside)
            }
            Shape::Takes(t, f) => larger(deeper(self.item(t).inside), self.item(f).inside),
            Shape::Struct(_, id) => structs.depth_of_struct(id).inside,
            Shape::Void(_) | Shape::Integer(_, _) => 1,
        }
    }

    // How many arrays stand in one another at the top.
    fn levels(&self, a: Shape) -> u64
        ensures { result ≡ spec.levels_in self.now a }
    {
        match a {
            Shape::Array(_, t, _) => deeper(self.item(t).levels),
            _ => 0,
        }
    }

    // What stands in the innermost of these arrays.
    fn base(&self, a: Shape) -> Shape
        ensures { result ≡ spec.base_in self.now a }
    {
        match a {
            Shape::Array(_, t, _) => self.item(t).base,
            _ => a,
        }
    }

    // The depth of what is no array.
    fn base_depth(&self, structs: &Structs, a: Shape) -> u64
        ensures { result ≡ spec.base_depth structs.now self.now a }
    {
        match a {
            Shape::Struct(_, id) => structs.depth_of_struct(id).whole,
            _ => self.inside(structs, a),
        }
    }

    /// How deep a type is whose parts are listed: void and an integer have 1; a pointer, an array and a function have 1 more
    /// than the deepest type that they are made of, and so has a struct than its members. A struct with a tag that is
    /// reached through a pointer or a function type counts 1 there.
    pub fn depth(&self, structs: &Structs, a: Shape) -> Depth
        ensures { result ≡ spec.depth_in structs.now self.now a }
    {
        let base = self.base_depth(structs, self.base(a));
        Depth {
            whole: self.levels(a).saturating_add(base),
            inside: self.inside(structs, a),
        }
    }

    // A struct with these members.
    pub(crate) fn of_members(
        &self,
        table: &TypeTable,
        structs: &Structs,
        members: &[Member],
    ) -> Depth
        ensures { result ≡ spec.members_depth table.now structs.now self.now members.now }
    {
        let mut depth = Depth::flat(0);
        for member in members {
            let one = self.depth(structs, table.shape(member.kind));
            depth = depth.deepest(one);
        }
        depth.sunk()
    }

    // Lists one type more.
    fn push(&mut self, structs: &Structs, a: Shape) -> Result<(), Memory>
        ensures { OnOk result (self.new ≡ self.old ++ spec.item_in structs.now self.old a ∷ []) }
    {
        let item = DepthItem {
            inside: self.inside(structs, a),
            levels: self.levels(a),
            base: self.base(a),
        };
        self.items.push(item)?;
        Ok(())
    }

    /// Lists each type of the table that isn't listed yet.
    pub fn catch_up(&mut self, table: &TypeTable, structs: &Structs) -> Result<(), Memory>
        ensures { OnOk result (self.new ≡ spec.caught_up table.now structs.now self.old) }
    {
        for shape in table.shapes_from(self.items.len()) {
            self.push(structs, *shape)?;
        }
        Ok(())
    }
}
