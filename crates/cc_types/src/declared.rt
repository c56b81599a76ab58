// What rules ask of the types of declarations of one name.
ghost use Rattle.std.specs.Prelude.{◌≡◌, ◌<◌, length};
ghost use Rattle.cc_types.specs.Shapes.{type_at, types_of};
ghost use Rattle.cc_types.specs.Questions as spec;
ghost use Rattle.cc_types.specs.Asked as asked;

use crate::shape::TypeId;
use crate::table::TypeTable;

impl TypeTable {
    /// Whether declarations of one object or function may have these two types: they are the same, or arrays of the same
    /// elements, one of them without a length.
    pub fn compatible(&self, a: TypeId, b: TypeId) -> bool
        ensures numbers { result ≡ asked.compatible self.now a b }
        ensures types { a.0 < length self.now → b.0 < length self.now
            → result ≡ spec.compatible (type_at (types_of self.now) a) (type_at (types_of self.now) b) }
    {
        self.stands();
        a.0 == b.0 || self.shape(a).alike_but_length(self.shape(b))
    }

    /// The type of what declarations of these two types declare: the one that has a length.
    pub fn composed(&self, a: TypeId, b: TypeId) -> TypeId
        ensures numbers { result ≡ asked.composed self.now a b }
        ensures types { type_at (types_of self.now) result
            ≡ spec.composed (type_at (types_of self.now) a) (type_at (types_of self.now) b) }
    {
        self.stands();
        if self.shape(a).wants_length() { b } else { a }
    }
}
