// What rules on declarations ask of types.
ghost use Rattle.std.specs.Prelude.{◌≡◌};
ghost use Rattle.cc_declare.specs.Shapes as spec;

use crate::checker::Checker;
use cc_types::{Shape, TypeId};

// C20: the cells that an object has at most.
const MOST_CELLS: u64 = 1_048_576;

/// Whether this is void.
pub fn is_void(a: Shape) -> bool
    ensures { result ≡ spec.is_void a }
{
    matches!(a, Shape::Void(_))
}

// Whether this is void, not const.
fn is_plain_void(a: Shape) -> bool
    ensures { result ≡ spec.is_plain_void a }
{
    match a {
        Shape::Void(k) => !k,
        _ => false,
    }
}

/// Whether this is an array.
pub fn is_array(a: Shape) -> bool
    ensures { result ≡ spec.is_array a }
{
    matches!(a, Shape::Array(_, _, _))
}

/// Whether this is an array without a length.
pub fn lacks_length(a: Shape) -> bool
    ensures { result ≡ spec.lacks_length a }
{
    matches!(a, Shape::Array(_, _, None))
}

/// Whether this is a struct.
pub fn is_struct(a: Shape) -> bool
    ensures { result ≡ spec.is_struct a }
{
    matches!(a, Shape::Struct(_, _))
}

/// Whether no function may have this result (C21).
pub fn is_no_result(a: Shape) -> bool
    ensures { result ≡ spec.is_no_result a }
{
    is_array(a) || a.is_function() || is_struct(a)
}

impl<'a> Checker<'a> {
    // Whether this is a struct that is not complete.
    fn is_incomplete_struct(&self, a: Shape) -> bool
        ensures { result ≡ spec.is_incomplete_struct self.now a }
    {
        match a {
            Shape::Struct(_, id) => !self.symbols.structs.is_complete(id),
            _ => false,
        }
    }

    /// Whether no object, member or element may have a type of this form (C19): void, a function, an incomplete struct.
    pub fn is_no_object(&self, a: Shape) -> bool
        ensures { result ≡ spec.is_no_object self.now a }
    {
        is_void(a) || a.is_function() || self.is_incomplete_struct(a)
    }

    /// Whether this has more cells than an object may have (C20).
    pub fn has_too_many_cells(&self, a: Shape) -> bool
        ensures { result ≡ spec.has_too_many_cells self.now a }
    {
        let measure = self.symbols.structs.measure(&self.symbols.types, a);
        measure.cells > MOST_CELLS
    }

    /// Whether a type is void.
    pub fn is_void_type(&self, kind: Option<TypeId>) -> bool
        ensures { result ≡ spec.is_void_type self.now kind }
    {
        match kind {
            Some(t) => is_void(self.symbols.types.shape(t)),
            None => false,
        }
    }

    // Whether this is a pointer to void, neither of them const.
    fn points_to_void(&self, a: Shape) -> bool
        ensures { result ≡ spec.points_to_void self.now a }
    {
        match a {
            Shape::Pointer(k, t) => !k && is_plain_void(self.symbols.types.shape(t)),
            _ => false,
        }
    }

    /// Whether a type is `void *`, with no const.
    pub fn is_void_pointer(&self, kind: Option<TypeId>) -> bool
        ensures { result ≡ spec.is_void_pointer self.now kind }
    {
        match kind {
            Some(t) => self.points_to_void(self.symbols.types.shape(t)),
            None => false,
        }
    }

    /// Whether a type is a struct.
    pub fn is_struct_type(&self, kind: Option<TypeId>) -> bool
        ensures { result ≡ spec.is_struct_type self.now kind }
    {
        match kind {
            Some(t) => is_struct(self.symbols.types.shape(t)),
            None => false,
        }
    }
}
