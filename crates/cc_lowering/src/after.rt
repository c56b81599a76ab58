// The act at the point after a node: what the node that it is a part of does with its value.
use crate::look::Look;
use cc_acts::Act;
use cc_arena::Node;
use cc_arith::{IntOp, IntUnary};
use cc_graph::Point;
use cc_layout::{
    cells_of, compound_of, conversion_at, gives_at, gives_one, inside, kind_at, member_offset,
    operator_at, pointee_at, step_operator,
};
use cc_tree::{AssignOp, BinaryOp, Side, StepOp, UnaryOp};
use cc_types::{ExprType, Shape};

impl<'a> Look<'a> {
    fn unary_act(&self, op: UnaryOp, e: u32, n: u32, next: Point) -> Act {
        match op {
            UnaryOp::Address => Act::Hand { occ: n, next },
            UnaryOp::Deref => Act::Target {
                occ: n,
                gives: gives_at(self.program, n),
                next,
            },
            UnaryOp::Int(IntUnary::Not) => Act::Truth {
                occ: n,
                is_negated: true,
                next,
            },
            UnaryOp::Int(op) => Act::Unary {
                occ: n,
                op,
                kind: kind_at(self.program, e),
                next,
            },
        }
    }

    // Behind the left part of `&&`, or of `||` (`when`): the right part `b` may come next.
    fn shortcut_act(&self, when: bool, b: u32, n: u32) -> Act {
        Act::Shortcut {
            occ: n,
            when,
            right: self.before(b),
            next: self.after(n),
        }
    }

    // Behind the left part of a binary operator.
    fn left_act(&self, op: BinaryOp, b: u32, n: u32, next: Point) -> Act {
        match op {
            BinaryOp::AndAnd => self.shortcut_act(false, b, n),
            BinaryOp::OrOr => self.shortcut_act(true, b, n),
            BinaryOp::Int(_) => Act::Skip { next },
        }
    }

    // Behind its right part.
    fn right_act(&self, op: BinaryOp, a: u32, b: u32, n: u32, next: Point) -> Act {
        match op {
            BinaryOp::AndAnd | BinaryOp::OrOr => Act::Truth {
                occ: n,
                is_negated: false,
                next,
            },
            BinaryOp::Int(op) => Act::Binary {
                occ: n,
                operator: operator_at(self.program, op, a, b),
                next,
            },
        }
    }

    // The type of an expression that is no pointer of which only the target stands in the table.
    fn plain_type(&self, e: u32) -> Option<Shape> {
        match self.program.type_of(e) {
            Some(ExprType::Plain(shape)) => Some(shape),
            _ => None,
        }
    }

    // An assignment to a scalar.
    fn scalar_assign_act(&self, op: AssignOp, a: u32, b: u32, n: u32, next: Point) -> Act {
        let lvalue = inside(self.program, a);
        let to = conversion_at(self.program, a);
        match compound_of(op) {
            None => Act::Store {
                lvalue,
                occ: n,
                to,
                next,
            },
            Some(op) => Act::Update {
                lvalue,
                occ: n,
                operator: operator_at(self.program, op, a, b),
                to,
                next,
            },
        }
    }

    fn assign_act(&self, op: AssignOp, a: u32, b: u32, n: u32, next: Point) -> Act {
        match self.plain_type(a) {
            Some(Shape::Struct(is_const, id)) => Act::Copy {
                lvalue: inside(self.program, a),
                occ: n,
                count: cells_of(self.program, Shape::Struct(is_const, id)),
                next,
            },
            _ => self.scalar_assign_act(op, a, b, n, next),
        }
    }

    fn step_act(&self, op: StepOp, side: Side, e: u32, n: u32, next: Point) -> Act {
        let op = match op {
            StepOp::Increment => IntOp::Add,
            StepOp::Decrement => IntOp::Sub,
        };
        Act::Step {
            lvalue: inside(self.program, e),
            occ: n,
            operator: step_operator(self.program, op, e),
            to: conversion_at(self.program, e),
            is_after: side == Side::After,
            next,
        }
    }

    // A member of the struct of this type that the lvalue designates.
    fn selection_act(&self, n: u32, lvalue: u32, shape: Option<Shape>, next: Point) -> Act {
        let shape = shape.unwrap_or(Shape::Void(false));
        let k = self.program.member_of(n).unwrap_or(0);
        Act::Member {
            occ: n,
            lvalue,
            cells: cells_of(self.program, shape),
            offset: member_offset(self.program, shape, k),
            gives: gives_at(self.program, n),
            next,
        }
    }

    // `e.m`: the lvalue inside e designates the struct.
    fn member_act(&self, e: u32, n: u32, next: Point) -> Act {
        self.selection_act(n, inside(self.program, e), self.plain_type(e), next)
    }

    // `e->m`, which designates the struct itself.
    fn arrow_act(&self, e: u32, n: u32, next: Point) -> Act {
        self.selection_act(n, n, pointee_at(self.program, e), next)
    }

    // Behind the part `c` of the expression `n`, or of braces, in which values wait to be filled in.
    fn act_in_expression(&self, c: u32, n: u32, next: Point) -> Act {
        match self.node(n) {
            Node::Paren(_) if gives_one(self.program, c) => Act::Hand { occ: n, next },
            Node::Unary(op, e) => self.unary_act(op, e, n, next),
            Node::Binary(op, a, b) if c == a => self.left_act(op, b, n, next),
            Node::Binary(op, a, b) => self.right_act(op, a, b, n, next),
            Node::Assign(op, a, b) if c != a => self.assign_act(op, a, b, n, next),
            Node::Step(op, side, e) => self.step_act(op, side, e, n, next),
            Node::Cond(test, a, b) if c == test => self.branch_act(a, self.before(b)),
            Node::Cond(_, _, _) | Node::Cast(_, _) => Act::Convert {
                occ: n,
                to: conversion_at(self.program, n),
                next,
            },
            Node::Comma(a, _) if c == a => Act::Forget { next },
            Node::Comma(_, _) => Act::Hand { occ: n, next },
            Node::Call(_, _) => self.argument_act(c, next),
            Node::Member(e) => self.member_act(e, n, next),
            Node::Arrow(e) => self.arrow_act(e, n, next),
            Node::Index(a, _) if c != a => Act::Element {
                occ: n,
                gives: gives_at(self.program, n),
                next,
            },
            _ => Act::Skip { next },
        }
    }

    // Behind the part `c` of `n`.
    fn act_in(&self, c: u32, n: u32, next: Point) -> Act {
        match self.node(n) {
            Node::Plain(_) => Act::Forget { next },
            Node::If(test, s) if c == test => self.branch_act(s, self.after(n)),
            Node::IfElse(test, s, t) if c == test => self.branch_act(s, self.before(t)),
            Node::While(test, s) | Node::Do(s, test) | Node::For(_, Some(test), _, s)
                if c == test => { self.branch_act(s, self.after(n)) }
            Node::For(start, _, third, _) if start == Some(c) || third == Some(c) => {
                Act::Forget { next }
            }
            Node::Switch(e, _) if c == e => self.select_act(n, e, next),
            Node::Return(_) => self.return_act(n, next),
            Node::Declared(_) => self.initial_act(n, next),
            Node::Block(_)
            | Node::If(_, _)
            | Node::IfElse(_, _, _)
            | Node::Switch(_, _)
            | Node::While(_, _)
            | Node::Do(_, _)
            | Node::For(_, _, _, _) => self.statement_act(c, n, next),
            _ => self.act_in_expression(c, n, next),
        }
    }

    /// The act at the point after a node. After a `break`, `continue` or `return` nothing is done any more: the objects that a
    /// `break` or `continue` leaves have ended before, and those of a function end at its exit.
    pub(crate) fn act_after(&self, c: u32, next: Point) -> Act {
        match self.node(c) {
            Node::Break | Node::Continue | Node::Return(_) => Act::Skip { next },
            _ => self.act_in(c, self.up(c), next),
        }
    }
}
