// What stands around a node.
use crate::counts::narrowed;
use crate::types::cells_of;
use cc_acts::Gives;
use cc_arena::Node;
use cc_program::{Program, Referent};
use cc_tree::{AssignOp, UnaryOp};
use cc_types::{ExprType, Shape};

/// An expression with the parentheses around it, and the node that this is a part of.
#[derive(Clone, Copy)]
pub struct Around {
    pub child: u32,
    pub up: u32,
    pub node: Option<Node>,
}

/// What stands around an expression, parentheses aside.
pub fn outside(program: &Program, n: u32) -> Around {
    let mut child = n;
    for _ in 0..program.occurrences() {
        let up = program.parent_of(child).unwrap_or(child);
        match program.node(up) {
            Some(Node::Paren(_)) if up != child => child = up,
            node => return Around { child, up, node },
        }
    }
    Around {
        child,
        up: child,
        node: None,
    }
}

/// The expression inside its parentheses.
pub fn inside(program: &Program, n: u32) -> u32 {
    let mut inner = n;
    for _ in 0..program.occurrences() {
        match program.node(inner) {
            Some(Node::Paren(e)) => inner = e,
            _ => return inner,
        }
    }
    inner
}

// The type of the variable that the name at a node names.
fn variable_type(program: &Program, n: u32) -> Option<ExprType> {
    match program.names(n) {
        Some(Referent::Variable(v)) => match program.variable(v) {
            Some(variable) => Some(ExprType::Plain(program.types().shape(variable.ty))),
            None => None,
        },
        _ => None,
    }
}

// The type of the object that an lvalue designates. Where a name is declared as an array without a length, another
// declaration of it tells the length (C17 6.2.7p4).
fn object_type(program: &Program, n: u32) -> Option<ExprType> {
    match program.type_of(n) {
        Some(ExprType::Plain(Shape::Array(_, _, None))) => variable_type(program, n),
        t => t,
    }
}

// What an lvalue of this type gives where it is used as a value.
fn gives_by_type(program: &Program, t: Option<ExprType>) -> Gives {
    match t {
        Some(ExprType::Plain(shape)) => match shape {
            Shape::Array(_, _, length) => Gives::Array {
                length: narrowed(length.unwrap_or(0)),
                cells: cells_of(program, shape),
            },
            Shape::Struct(_, _) => Gives::Cells {
                count: cells_of(program, shape),
            },
            Shape::Integer(_, _) | Shape::Pointer(_, _) => Gives::Value,
            Shape::Void(_) | Shape::Function(_) | Shape::Takes(_, _) => Gives::Place,
        },
        Some(ExprType::Address(_)) => Gives::Value,
        None => Gives::Place,
    }
}

/// What an evaluated lvalue gives.
pub fn gives_at(program: &Program, n: u32) -> Gives {
    let around = outside(program, n);
    match around.node {
        Some(Node::Unary(UnaryOp::Address, _)) | Some(Node::Member(_)) => Gives::Place,
        Some(Node::Assign(AssignOp::Plain, left, _)) if left == around.child => Gives::Place,
        Some(Node::Assign(_, left, _)) if left == around.child => Gives::Both,
        Some(Node::Step(_, _, _)) => Gives::Both,
        _ => gives_by_type(program, object_type(program, n)),
    }
}

/// Whether the expression inside these parentheses gives one value, or a place.
pub fn gives_one(program: &Program, n: u32) -> bool {
    let inner = inside(program, n);
    match program.node(inner) {
        Some(Node::Name) | Some(Node::Str(_)) | Some(Node::Unary(UnaryOp::Deref, _)) => is_one(
            program, inner,
        ),
        Some(Node::Member(_)) | Some(Node::Arrow(_)) | Some(Node::Index(_, _)) => is_one(
            program, inner,
        ),
        _ => true,
    }
}

fn is_one(program: &Program, n: u32) -> bool {
    match gives_at(program, n) {
        Gives::Both | Gives::Cells { .. } => false,
        Gives::Place | Gives::Value | Gives::Array { .. } => true,
    }
}
