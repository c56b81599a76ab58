// Whether a value fits a type.
ghost use Rattle.std.specs.Prelude.{◌≡◌};
ghost use Rattle.cc_types.specs.Shapes.{types_of};
ghost use Rattle.cc_types.specs.ExprTypes.{expr_type, HasSound};
ghost use Rattle.cc_types.specs.Structs as spec;

use crate::expr_type::ExprType;
use crate::shape::Shape;
use crate::structs::Structs;
use crate::table::TypeTable;

impl TypeTable {
    /// Whether a value of the first type, which may be a null constant, fits the second (C17 6.5.16.1): both are integer
    /// types; or pointers to the same type, where the target's pointee may have an added const; or the target is a
    /// pointer and the value a null constant; or both are the same complete struct type, const aside.
    pub fn fits(&self, structs: &Structs, s: ExprType, is_null: bool, t: ExprType) -> bool
        ensures shapes { result ≡ spec.fits_in self.now structs.now s is_null t }
        ensures types { HasSound (types_of self.now) s → HasSound (types_of self.now) t
            → result ≡ spec.fits structs.now (expr_type (types_of self.now) s) is_null (expr_type (types_of self.now) t) }
    {
        self.stands();
        let is_scalar = self.fits_scalar(s, is_null, t);
        is_scalar || self.are_one_struct(structs, s, t)
    }

    // Whether both are the same complete struct type, const aside.
    fn are_one_struct(&self, structs: &Structs, s: ExprType, t: ExprType) -> bool
        ensures { result ≡ spec.are_one_struct structs.now (expr_type (types_of self.now) s) (expr_type (types_of self.now) t) }
    {
        match (s, t) {
            (ExprType::Plain(Shape::Struct(_, a)), ExprType::Plain(Shape::Struct(_, b))) => {
                a.0 == b.0 && structs.is_complete(a)
            }
            _ => false,
        }
    }
}
