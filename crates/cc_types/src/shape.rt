// Types by their outermost form.
ghost use Rattle.std.specs.Prelude.{◌≡◌};
ghost use Rattle.cc_types.specs.Asked as asked;
ghost use Rattle.cc_types.specs.Interning as spec;

use cc_arith::IntKind;
use cc_tree::StructId;

/// A type of a [`crate::TypeTable`], by its number there.
#[derive(Clone, Copy, Debug, PartialEq, Eq, Hash)]
pub struct TypeId(pub u32);

/// A type by its outermost form (C17 6.2.5); what it is made of stands in the table. A first field says whether the type
/// is const.
#[derive(Clone, Copy, Debug, PartialEq, Eq, Hash)]
pub enum Shape {
    Void(bool),
    Integer(bool, IntKind),
    Pointer(bool, TypeId),
    /// The type of the elements, and how many they are where it is known. The elements of a const array are const
    /// (C17 6.7.3, paragraph 9); their type stands here without it.
    Array(bool, TypeId, Option<u64>),
    /// A function without parameters, by the type of its result.
    Function(TypeId),
    /// A function with one parameter more, before those of another function type.
    Takes(TypeId, TypeId),
    Struct(bool, StructId),
}

impl Shape {
    /// Whether the type is const.
    pub fn is_const(self) -> bool
        ensures { result ≡ spec.is_const self }
    {
        match self {
            Shape::Void(k) | Shape::Integer(k, _) | Shape::Pointer(k, _) => k,
            Shape::Array(k, _, _) | Shape::Struct(k, _) => k,
            Shape::Function(_) | Shape::Takes(_, _) => false,
        }
    }

    /// The same type, const or not. A function type is never const.
    pub fn with_const(self, is_const: bool) -> Shape
        ensures { result ≡ spec.with_const is_const self }
    {
        match self {
            Shape::Void(_) => Shape::Void(is_const),
            Shape::Integer(_, kind) => Shape::Integer(is_const, kind),
            Shape::Pointer(_, t) => Shape::Pointer(is_const, t),
            Shape::Array(_, t, n) => Shape::Array(is_const, t, n),
            Shape::Struct(_, id) => Shape::Struct(is_const, id),
            Shape::Function(_) | Shape::Takes(_, _) => self,
        }
    }

    /// Whether it is a function type.
    pub fn is_function(self) -> bool
        ensures { result ≡ spec.is_function self }
    {
        matches!(self, Shape::Function(_) | Shape::Takes(_, _))
    }

    /// The same type with a const, if one is to be added: the type of a member of a const struct (C17 6.5.2.3).
    pub fn also_const(self, is_const: bool) -> Shape
        ensures { result ≡ asked.also_const is_const self }
    {
        self.with_const(is_const || self.is_const())
    }

    /// The same type, const aside. The elements of an array keep theirs.
    pub fn unqualified(self) -> Shape
        ensures { result ≡ asked.unqualified self }
    {
        match self {
            Shape::Array(_, _, _) => self,
            _ => self.with_const(false),
        }
    }

    // Whether it is an array whose length isn't known.
    pub(crate) fn wants_length(self) -> bool
        ensures { result ≡ asked.wants_length self }
    {
        matches!(self, Shape::Array(_, _, None))
    }

    // Whether these are arrays of the same elements, one of them without a length.
    pub(crate) fn alike_but_length(self, other: Shape) -> bool
        ensures { result ≡ asked.alike_but_length self other }
    {
        match (self, other) {
            (Shape::Array(k, t, m), Shape::Array(j, u, n)) => {
                k == j && t.0 == u.0 && (m.is_none() || n.is_none())
            }
            _ => false,
        }
    }

    // Whether the other is this type, or this type with a const added, which an array type can't have.
    pub(crate) fn is_or_gains_const(self, other: Shape) -> bool
        ensures { result ≡ asked.is_or_gains_const self other }
    {
        let is_array = matches!(self, Shape::Array(_, _, _));
        self == other || !is_array && self.with_const(true) == other
    }
}
