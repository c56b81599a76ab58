// The types of expressions.
use crate::shape::Shape;

/// The type of an expression: a shape whose parts are in the table, or a pointer to the type of one. Neither need be in
/// the table itself, so that no rule on expressions has to put a type there.
#[derive(Clone, Copy, Debug, PartialEq, Eq)]
pub enum ExprType {
    Plain(Shape),
    Address(Shape),
}
