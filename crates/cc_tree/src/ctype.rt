// The types of C.
ghost use Rattle.std.specs.Prelude.{◌≡◌};
ghost use Rattle.cc_tree.specs.Types as types;

use crate::ids::StructId;
use cc_arith::IntKind;
use sqlite_items::{Boxed, Items};

/// A type (C17 6.2.5). The first field of each says whether it is const.
#[derive(Drop)]
pub enum CType {
    Void(bool),
    Integer(bool, IntKind),
    Pointer(bool, Boxed<CType>),
    /// The element's type, and the length where it is known.
    Array(bool, Boxed<CType>, Option<u64>),
    /// The types of the parameters, and that of the result.
    Func(bool, Items<CType>, Boxed<CType>),
    Struct(bool, StructId),
}

impl CType {
    /// Whether the type is const (C17 6.7.3). Takes no memory.
    pub fn is_const(&self) -> bool
        ensures { result ≡ types.has_const (types.view_ctype self.now) }
    {
        match self {
            CType::Void(is_const) | CType::Integer(is_const, _) => *is_const,
            CType::Pointer(is_const, _) | CType::Array(is_const, _, _) => *is_const,
            CType::Func(is_const, _, _) | CType::Struct(is_const, _) => *is_const,
        }
    }

    /// This type made const, or not const (C17 6.7.3), with nothing else changed. Takes no memory.
    pub fn with_const(self, is_const: bool) -> CType
        ensures { types.view_ctype result ≡ types.with_const is_const (types.view_ctype self) }
    {
        match self {
            CType::Void(_) => CType::Void(is_const),
            CType::Integer(_, kind) => CType::Integer(is_const, kind),
            CType::Pointer(_, target) => CType::Pointer(is_const, target),
            CType::Array(_, element, length) => CType::Array(is_const, element, length),
            CType::Func(_, parameters, answer) => CType::Func(is_const, parameters, answer),
            CType::Struct(_, id) => CType::Struct(is_const, id),
        }
    }
}
