// The table of types.
ghost use Rattle.std.specs.Prelude.{◌≡◌, [], false, drop, length, nat_lt, IfOk};
ghost use Rattle.cc_types.specs.Interning as spec;
ghost use Rattle.cc_types.specs.Shapes.{built, type_at, types_of, IsSound, IsTable};

use crate::shape::{Shape, TypeId};
use cc_base::Memory;
use indexmap::IndexSet;
use std::alloc::Global;
use std::marker::Model;

/// The types so far, each once. What a type is made of stands before it. A contract sees their shapes, in order.
#[derive(Drop)]
pub struct TypeTable {
    shapes: IndexSet<Shape>,
}

impl Model for TypeTable {
    ghost use Rattle.std.specs.Prelude.{List};
    ghost use Rattle.cc_types.specs.declared.shape.Shape.{Shape};
    ghost use Rattle.cc_types.specs.Shapes.{IsTable as IsTypeTable};

    ghost Value = { List Shape };

    ghost view = { λ t. t.shapes.keys };

    ghost invariant = { λ t. IsTypeTable t.shapes.keys };
}

impl TypeTable {
    /// No types. Takes no memory.
    pub fn new(alloc: Global) -> TypeTable
        ensures { result ≡ [] }
    {
        TypeTable {
            shapes: IndexSet::new(alloc),
        }
    }

    /// The form of a type; void for a number without a type.
    pub fn shape(&self, id: TypeId) -> Shape
        ensures number { result ≡ spec.shape_of self.now id }
        ensures value { built (types_of self.now) result ≡ type_at (types_of self.now) id }
        ensures sound { IsSound (types_of self.now) result }
    {
        let shapes = self.shapes.as_slice();
        if (id.0 as usize) < shapes.len() {
            shapes[id.0 as usize]
        } else {
            Shape::Void(false)
        }
    }

    // The shapes from this number on.
    pub(crate) fn shapes_from(&self, number: usize) -> &[Shape]
        ensures { result.now ≡ drop number self.now }
    {
        let shapes = self.shapes.as_slice();
        if number < shapes.len() {
            &shapes[number..]
        } else {
            &[]
        }
    }

    // Each type stands once, made of earlier ones.
    pub(crate) fn stands(&self)
        ensures { IsTable self.now }
    {
        let _ = &self.shapes;
    }

    // Whether there is a type of this number.
    fn has(&self, id: TypeId) -> bool
        ensures { result ≡ nat_lt id.0 (length self.now) }
    {
        (id.0 as usize) < self.shapes.len()
    }

    // Whether there is a type of this number that isn't const.
    fn has_bare(&self, id: TypeId) -> bool
        ensures { result ≡ spec.is_bare_in self.now id }
    {
        self.has(id) && !self.shape(id).is_const()
    }

    // Whether there is a function type of this number.
    fn has_function(&self, id: TypeId) -> bool
        ensures { result ≡ spec.is_function_in self.now id }
    {
        self.has(id) && self.shape(id).is_function()
    }

    // Whether what the shape is made of is there.
    fn is_made(&self, a: Shape) -> bool
        ensures { result ≡ spec.is_made self.now a }
    {
        match a {
            Shape::Pointer(_, t) => self.has(t),
            Shape::Array(_, t, _) | Shape::Function(t) => self.has_bare(t),
            Shape::Takes(t, f) => self.has_bare(t) && self.has_function(f),
            _ => true,
        }
    }

    // The shape, or void where what it is made of isn't there.
    fn made_or_void(&self, a: Shape) -> Shape
        ensures { result ≡ spec.made_or_void self.now a }
    {
        if self.is_made(a) {
            a
        } else {
            Shape::Void(false)
        }
    }

    /// The type of this shape, which is in the table from then on. It is void where what the shape is made of isn't in
    /// the table, where elements, a result or a parameter are const (`array`, `function` and `taking` see to that), or
    /// where what is to take a parameter more is no function.
    pub fn intern(&mut self, shape: Shape) -> Result<TypeId, Memory>
        ensures { IfOk result (λ id. (self.new, id) ≡ spec.interned self.old shape) }
    {
        let shape = self.made_or_void(shape);
        if self.shapes.len() > u32::MAX as usize {
            return Err(Memory);
        }
        let (index, _) = self.shapes.insert_full(shape)?;
        Ok(TypeId(index as u32))
    }

    // The number of this type without its const.
    fn bare(&mut self, id: TypeId) -> Result<TypeId, Memory>
        ensures { IfOk result (λ bare. (self.new, bare)
            ≡ spec.interned self.old (spec.with_const false (spec.shape_of self.old id))) }
    {
        let shape = self.shape(id).with_const(false);
        self.intern(shape)
    }

    /// The type of arrays of these elements (C17 6.7.6.2): const where these are.
    pub fn array(&mut self, element: TypeId, length: Option<u64>) -> Result<TypeId, Memory>
        ensures { IfOk result (λ id. (self.new, id) ≡ spec.array_made self.old element length) }
    {
        let is_const = self.shape(element).is_const();
        let bare = self.bare(element)?;
        self.intern(Shape::Array(is_const, bare, length))
    }

    /// The type of functions without parameters that have this result (C17 6.7.6.3); its const says nothing.
    pub fn function(&mut self, value: TypeId) -> Result<TypeId, Memory>
        ensures { IfOk result (λ id. (self.new, id) ≡ spec.function_made self.old value) }
    {
        let bare = self.bare(value)?;
        self.intern(Shape::Function(bare))
    }

    /// The type of functions with this parameter before those of another function type (C17 6.7.6.3); its const says
    /// nothing. An array or a function is no parameter's type: the caller takes what `adjusted` gives.
    pub fn taking(&mut self, parameter: TypeId, function: TypeId) -> Result<TypeId, Memory>
        ensures { IfOk result (λ id. (self.new, id) ≡ spec.taking_made self.old parameter function) }
    {
        let bare = self.bare(parameter)?;
        self.intern(Shape::Takes(bare, function))
    }

    /// The type of a parameter that is declared with this type (C17 6.7.6.3, paragraphs 7 and 8): of an array a pointer to
    /// its elements, which are const where the array is; of a function a pointer to it; else the same.
    pub fn adjusted(&mut self, id: TypeId) -> Result<TypeId, Memory>
        ensures { IfOk result (λ made. (self.new, made) ≡ spec.adjusted self.old id) }
    {
        match self.shape(id) {
            Shape::Array(is_const, element, _) => {
                let element = self.also_const(is_const, element)?;
                self.intern(Shape::Pointer(false, element))
            }
            Shape::Function(_) | Shape::Takes(_, _) => self.intern(Shape::Pointer(false, id)),
            _ => Ok(id),
        }
    }

    /// The same type, and const too where that is to be (C17 6.7.3).
    pub fn also_const(&mut self, is_const: bool, id: TypeId) -> Result<TypeId, Memory>
        ensures { IfOk result (λ made. (self.new, made) ≡ spec.const_made self.old is_const id) }
    {
        let shape = self.shape(id).also_const(is_const);
        self.intern(shape)
    }
}
