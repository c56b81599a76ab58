// What rules ask of the types of expressions.
//
// A clause `types` says an answer in terms of types, for shapes and types whose parts are in the table; a clause `shapes`
// says it in terms of shapes and numbers, for all.
ghost use Rattle.std.specs.Prelude.{◌≡◌, IfSome, option_map};
ghost use Rattle.cc_types.specs.CTypes.{has_const};
ghost use Rattle.cc_types.specs.Shapes.{built, types_of, IsSound};
ghost use Rattle.cc_types.specs.ExprTypes.{expr_type, HasSound};
ghost use Rattle.cc_types.specs.Questions as spec;
ghost use Rattle.cc_types.specs.Asked as asked;

use crate::expr_type::ExprType;
use crate::shape::Shape;
use crate::table::TypeTable;
use cc_arith::{IntKind, common, promote};

impl TypeTable {
    /// The type of the value of an expression of this type (C17 6.3.2.1): an array is a pointer to its first element, const
    /// where the array is, a function a pointer to it, and another value is never const.
    pub fn value(&self, t: ExprType) -> ExprType
        ensures shapes { result ≡ asked.value_in self.now t }
        ensures types { expr_type (types_of self.now) result ≡ spec.value_type (expr_type (types_of self.now) t) }
        ensures sound { HasSound (types_of self.now) t → HasSound (types_of self.now) result }
    {
        match t {
            ExprType::Address(a) => ExprType::Address(a),
            ExprType::Plain(Shape::Array(k, id, _)) => ExprType::Address(
                self.shape(id).with_const(k),
            ),
            ExprType::Plain(Shape::Function(id)) => ExprType::Address(Shape::Function(id)),
            ExprType::Plain(Shape::Takes(id, rest)) => ExprType::Address(Shape::Takes(id, rest)),
            ExprType::Plain(a) => ExprType::Plain(a.with_const(false)),
        }
    }

    /// What a pointer points to.
    pub fn pointee(&self, t: ExprType) -> Option<Shape>
        ensures shapes { result ≡ asked.pointee_in self.now t }
        ensures types { option_map (built (types_of self.now)) result ≡ spec.pointee_of (expr_type (types_of self.now) t) }
        ensures sound { HasSound (types_of self.now) t → IfSome result (IsSound (types_of self.now)) }
    {
        match t {
            ExprType::Address(a) => Some(a),
            ExprType::Plain(Shape::Pointer(_, id)) => Some(self.shape(id)),
            ExprType::Plain(_) => None,
        }
    }

    /// The integer kind of an integer type.
    pub fn kind(&self, t: ExprType) -> Option<IntKind>
        ensures { result ≡ spec.kind_of (expr_type (types_of self.now) t) }
    {
        match t {
            ExprType::Plain(Shape::Integer(_, kind)) => Some(kind),
            _ => None,
        }
    }

    /// The kind of an integer operand after the integer promotions (C17 6.3.1.1).
    pub fn promoted_kind(&self, t: ExprType) -> Option<IntKind>
        ensures { result ≡ spec.promoted_kind (expr_type (types_of self.now) t) }
    {
        match self.kind(t) {
            Some(kind) => Some(promote(kind)),
            None => None,
        }
    }

    /// The kind that the usual arithmetic conversions give two integers (C17 6.3.1.8).
    pub fn common_kind(&self, s: ExprType, t: ExprType) -> Option<IntKind>
        ensures { result ≡ spec.common_kind (expr_type (types_of self.now) s) (expr_type (types_of self.now) t) }
    {
        match (self.kind(s), self.kind(t)) {
            (Some(a), Some(b)) => Some(common(a, b)),
            _ => None,
        }
    }

    /// Whether a type is void.
    pub fn is_void(&self, t: ExprType) -> bool
        ensures { result ≡ spec.is_void (expr_type (types_of self.now) t) }
    {
        matches!(t, ExprType::Plain(Shape::Void(_)))
    }

    /// Whether a type is an integer type.
    pub fn is_integer(&self, t: ExprType) -> bool
        ensures { result ≡ spec.is_integer (expr_type (types_of self.now) t) }
    {
        matches!(t, ExprType::Plain(Shape::Integer(_, _)))
    }

    /// Whether a type is a pointer type.
    pub fn is_pointer(&self, t: ExprType) -> bool
        ensures { result ≡ spec.is_pointer (expr_type (types_of self.now) t) }
    {
        matches!(
            t,
            ExprType::Address(_) | ExprType::Plain(Shape::Pointer(_, _))
        )
    }

    /// Whether a type is an integer or a pointer type (C17 6.2.5, paragraph 21).
    pub fn is_scalar(&self, t: ExprType) -> bool
        ensures { result ≡ spec.is_scalar (expr_type (types_of self.now) t) }
    {
        matches!(
            t,
            ExprType::Address(_)
                | ExprType::Plain(Shape::Pointer(_, _))
                | ExprType::Plain(Shape::Integer(_, _))
        )
    }

    /// Whether a type is const.
    pub fn is_const(&self, t: ExprType) -> bool
        ensures { result ≡ has_const (expr_type (types_of self.now) t) }
    {
        match t {
            ExprType::Plain(a) => a.is_const(),
            ExprType::Address(_) => false,
        }
    }

    /// Whether a type is neither a function type nor void. It may be incomplete.
    pub fn is_object(&self, t: ExprType) -> bool
        ensures { result ≡ spec.is_object (expr_type (types_of self.now) t) }
    {
        match t {
            ExprType::Plain(a) => !a.is_function() && !self.is_void(t),
            ExprType::Address(_) => true,
        }
    }

    /// Whether a type is a pointer to neither a function nor void.
    pub fn points_to_object(&self, t: ExprType) -> bool
        ensures { result ≡ spec.points_to_object (expr_type (types_of self.now) t) }
    {
        match self.pointee(t) {
            Some(a) => self.is_object(ExprType::Plain(a)),
            None => false,
        }
    }

    /// Whether two types are pointers to the same type.
    pub fn point_at_one(&self, s: ExprType, t: ExprType) -> bool
        ensures shapes { result ≡ asked.point_at_one self.now s t }
        ensures types { HasSound (types_of self.now) s → HasSound (types_of self.now) t
            → result ≡ spec.point_at_one (expr_type (types_of self.now) s) (expr_type (types_of self.now) t) }
    {
        self.stands();
        match (self.pointee(s), self.pointee(t)) {
            (Some(a), Some(b)) => a == b,
            _ => false,
        }
    }

    /// Whether two types are pointers to the same type, const aside.
    pub fn point_alike(&self, s: ExprType, t: ExprType) -> bool
        ensures shapes { result ≡ asked.point_alike self.now s t }
        ensures types { HasSound (types_of self.now) s → HasSound (types_of self.now) t
            → result ≡ spec.point_alike (expr_type (types_of self.now) s) (expr_type (types_of self.now) t) }
    {
        self.stands();
        match (self.pointee(s), self.pointee(t)) {
            (Some(a), Some(b)) => a.unqualified() == b.unqualified(),
            _ => false,
        }
    }

    /// Whether two types are pointers to the same type, where the second's pointee may have an added const.
    pub fn may_point_at(&self, s: ExprType, t: ExprType) -> bool
        ensures shapes { result ≡ asked.may_point_at self.now s t }
        ensures types { HasSound (types_of self.now) s → HasSound (types_of self.now) t
            → result ≡ spec.may_point_at (expr_type (types_of self.now) s) (expr_type (types_of self.now) t) }
    {
        self.stands();
        match (self.pointee(s), self.pointee(t)) {
            (Some(a), Some(b)) => a.is_or_gains_const(b),
            _ => false,
        }
    }

    // Whether a value of the first type, which may be a null constant, fits the second, structs left out.
    pub(crate) fn fits_scalar(&self, s: ExprType, is_null: bool, t: ExprType) -> bool
        ensures { result ≡ asked.fits_scalar self.now s is_null t }
    {
        self.is_integer(s) && self.is_integer(t)
            || self.may_point_at(s, t)
            || is_null && self.is_pointer(t)
    }
}
