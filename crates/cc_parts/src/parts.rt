// The parts of all objects of a program.
ghost use Rattle.std.specs.Prelude.{◌≡◌, ◌++◌, ◌+◌, ◌≤◌, ◌<◌, ◌^◌, [], length, slice_get, OnOk};
ghost use Rattle.cc_parts.specs.PartTables as spec;

use crate::build::put_parts;
use crate::part::{DEPTH, Form, Part};
use cc_base::Memory;
use cc_symbols::Slots;
use cc_tree::StructId;
use cc_types::{Structs, TypeId, TypeTable};
use std::alloc::Global;

/// An object: a variable, by the node of its defining declarator, or a string literal, by its node.
#[derive(Clone, Copy)]
pub struct Object {
    pub node: u32,
    /// The part that is the whole object. Those that it is made of come next.
    pub first: u32,
}

/// The objects of a program, by number, and their parts, one object after another.
#[derive(Drop)]
pub struct Parts {
    pub objects: Slots<Object>,
    pub parts: Slots<Part>,
}

// Puts the parts of an object of a type at the end.
fn put_whole(
    parts: &mut Slots<Part>,
    table: &TypeTable,
    structs: &Structs,
    object: u32,
    kind: TypeId,
) -> Result<(), Memory>
    ensures { OnOk result (parts.new ≡ parts.old ++ spec.object_parts table.now structs.now object kind) }
{
    put_parts(parts, table, structs, object, DEPTH, false, kind)?;
    Ok(())
}

impl Parts {
    /// No objects. Takes no memory.
    pub fn new(alloc: Global) -> Parts
        ensures { result ≡ spec.no_parts }
    {
        Parts {
            objects: Slots::new(alloc),
            parts: Slots::new(alloc),
        }
    }

    /// Puts an object of a type at the end. Fails where memory or numbers are wanting.
    pub fn put_object(
        &mut self,
        table: &TypeTable,
        structs: &Structs,
        node: u32,
        kind: TypeId,
    ) -> Result<(), Memory>
        ensures { OnOk result (self.new ≡ spec.with_object table.now structs.now node kind self.old) }
    {
        let object = self.objects.count()?;
        let first = self.parts.count()?;
        put_whole(&mut self.parts, table, structs, object, kind)?;
        self.objects.push(Object { node, first })
    }

    /// Puts a string literal at the end. Fails where memory or numbers are wanting.
    pub fn put_literal(&mut self, node: u32) -> Result<(), Memory>
        ensures { OnOk result (self.new ≡ spec.with_literal node self.old) }
    {
        let object = self.objects.count()?;
        let first = self.parts.count()?;
        self.parts.push(Part {
            object,
            form: Form::Array,
            in_array: false,
            size: 2,
        })?;
        self.parts.push(Part {
            object,
            form: Form::Number,
            in_array: true,
            size: 1,
        })?;
        self.objects.push(Object { node, first })
    }

    /// How many parts there are; 2^32 - 1 stands for that many or more. Takes no memory, as all that follow.
    pub fn count(&self) -> u32
        ensures { result ≡ spec.count_of self.now.parts }
    {
        let count = self.parts.as_slice().len();
        if count < u32::MAX as usize {
            count as u32
        } else {
            u32::MAX
        }
    }

    /// The part of this number.
    pub fn part_at(&self, q: u32) -> Option<Part>
        ensures { result ≡ slice_get self.now.parts q }
    {
        self.parts.get(q)
    }

    /// The object of this number.
    pub fn object_at(&self, object: u32) -> Option<Object>
        ensures { result ≡ slice_get self.now.objects object }
    {
        self.objects.get(object)
    }

    // What the type of a part is.
    fn form_at(&self, q: u32) -> Form
        ensures { result ≡ spec.form_at self.now.parts q }
    {
        match self.parts.get(q) {
            Some(part) => part.form,
            None => Form::Other,
        }
    }

    // How many parts a part is made of.
    fn size_at(&self, q: u32) -> u32
        ensures { result ≡ spec.size_at self.now.parts q }
    {
        match self.parts.get(q) {
            Some(part) => part.size,
            None => 0,
        }
    }

    /// Whether a part is of scalar type: whether it is a slot.
    pub fn is_slot(&self, q: u32) -> bool
        ensures { result ≡ spec.is_slot self.now.parts q }
    {
        matches!(self.form_at(q), Form::Number | Form::Pointer)
    }

    /// Whether a part is of pointer type.
    pub fn is_pointer(&self, q: u32) -> bool
        ensures { result ≡ spec.is_pointer self.now.parts q }
    {
        matches!(self.form_at(q), Form::Pointer)
    }

    /// The elements of a part of array type.
    pub fn element_of(&self, q: u32) -> Option<u32>
        ensures { result ≡ spec.element_of self.now.parts q }
    {
        let count = self.count();
        match self.form_at(q) {
            Form::Array => next_below(count, q),
            _ => None,
        }
    }

    /// A member of a part of struct type, by its place in the struct.
    pub fn member_of(&self, q: u32, member: u32) -> Option<u32>
        ensures { result ≡ spec.member_of self.now.parts q member }
    {
        let count = self.count();
        let size = self.size_at(q);
        match self.form_at(q) {
            Form::Struct(_) => {
                if q < count && size <= count - q {
                    self.walk(q + size, q + 1, member)
                } else {
                    None
                }
            }
            _ => None,
        }
    }

    // The part that comes so many parts after another one, those that each is made of left out, before the part `last`.
    fn walk(&self, last: u32, first: u32, steps: u32) -> Option<u32>
        ensures { result ≡ spec.walk self.now.parts last first steps }
    {
        let mut q = first;
        for _step in 0..steps {
            if q >= last {
                return None;
            }
            let size = self.size_at(q);
            if size > last - q {
                return None;
            }
            q += size;
        }
        if q < last { Some(q) } else { None }
    }

    /// The pointer that comes `offset` parts after a part of struct type and that this is made of; none where the part is
    /// of another type than the struct, or no pointer is there.
    pub fn pointer_in(&self, id: StructId, q: u32, offset: u32) -> Option<u32>
        ensures { result ≡ spec.pointer_in self.now.parts id.0 q offset }
    {
        let count = self.count();
        if !self.is_struct(id, q)
            || offset >= self.size_at(q)
            || q >= count
            || offset >= count - q
        {
            return None;
        }
        let r = q + offset;
        if self.is_pointer(r) { Some(r) } else { None }
    }

    // Whether a part is of this struct type.
    fn is_struct(&self, id: StructId, q: u32) -> bool
        ensures { result ≡ spec.is_struct self.now.parts id.0 q }
    {
        match self.form_at(q) {
            Form::Struct(other) => other.0 == id.0,
            _ => false,
        }
    }
}

// The number after q, where it is below the count.
fn next_below(count: u32, q: u32) -> Option<u32>
    ensures { result ≡ spec.next_below count q }
{
    if q < count && q + 1 < count {
        Some(q + 1)
    } else {
        None
    }
}
