// Arguments and returns that are names of variables.
ghost use Rattle.std.specs.Prelude.{◌≡◌};
ghost use Rattle.cc_roles.specs.Names as spec;

use cc_arena::Node;
use cc_program::{Program, Referent, VarId};
use cc_types::{Shape, TypeId};

// What stands in the parentheses of a node, if it is parentheses.
fn inside(program: &Program, node: u32) -> Option<u32>
    ensures { result ≡ spec.inside program.now.arena node }
{
    match program.node(node) {
        Some(Node::Paren(inner)) => Some(inner),
        _ => None,
    }
}

// The node, parentheses aside.
#[tactic(auto, using(crate::proofs::Steps::bare_step, crate::proofs::Steps::bare_stop, crate::proofs::Steps::bare_end))]
fn bare(program: &Program, node: u32) -> u32
    ensures { result ≡ spec.bare program.now.arena node }
{
    let mut at = node;
    for _ in 0..program.arena().nodes.len() {
        match inside(program, at) {
            Some(inner) => at = inner,
            None => return at,
        }
    }
    at
}

// Whether objects of the type are scalars: integers or pointers.
fn is_scalar(program: &Program, ty: TypeId) -> bool
    ensures { result ≡ spec.is_scalar program.now ty }
{
    match program.types().shape(ty) {
        Shape::Integer(_, _) | Shape::Pointer(_, _) => true,
        Shape::Void(_) | Shape::Array(_, _, _) | Shape::Struct(_, _) => false,
        Shape::Function(_) | Shape::Takes(_, _) => false,
    }
}

// Whether the variable is a scalar.
fn is_scalar_variable(program: &Program, v: VarId) -> bool
    ensures { result ≡ spec.is_scalar_variable program.now v }
{
    match program.variable(v) {
        Some(variable) => is_scalar(program, variable.ty),
        None => false,
    }
}

// Whether the node is the name of a variable of scalar type, as an expression.
fn is_name(program: &Program, node: u32) -> bool
    ensures { result ≡ spec.is_name program.now node }
{
    match program.node(node) {
        Some(Node::Name) => match program.names(node) {
            Some(Referent::Variable(v)) => is_scalar_variable(program, v),
            _ => false,
        },
        _ => false,
    }
}

/// The name of a variable of scalar type that an expression is, parentheses aside.
pub fn named(program: &Program, node: u32) -> Option<u32>
    ensures { result ≡ spec.named program.now node }
{
    let name = bare(program, node);
    if is_name(program, name) {
        Some(name)
    } else {
        None
    }
}

/// The name of a variable of scalar type whose value a `return` statement gives, parentheses aside.
pub fn returned(program: &Program, node: u32) -> Option<u32>
    ensures { result ≡ spec.returned program.now node }
{
    match program.node(node) {
        Some(Node::Return(Some(value))) => named(program, value),
        _ => None,
    }
}
