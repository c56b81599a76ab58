// The acts behind the parts of statements and declarators.
use crate::look::Look;
use cc_acts::Act;
use cc_arena::Node;
use cc_arith::promote;
use cc_graph::Point;
use cc_layout::{conversion_to, declared_type, kind_at};
use cc_types::{Shape, TypeId};

impl<'a> Look<'a> {
    /// Behind a condition: to before a statement or expression, or to a point.
    pub(crate) fn branch_act(&self, yes: u32, no: Point) -> Act {
        Act::Branch {
            yes: self.before(yes),
            no,
        }
    }

    /// Behind the expression of a `switch`.
    pub(crate) fn select_act(&self, n: u32, e: u32, next: Point) -> Act {
        match self.sides.selects.get(n) {
            Some(Some(select)) => Act::Select {
                kind: promote(kind_at(self.program, e)),
                from: select.from,
                count: select.count,
                other: select.other,
            },
            _ => Act::Skip { next },
        }
    }

    // Behind the initialiser of an object with this type.
    fn filling_act(&self, n: u32, name: u32, t: TypeId, next: Point) -> Act {
        let shape = self.program.types().shape(t);
        match (self.sides.fills.get(n), shape) {
            (Some(Some(fill)), Shape::Array(_, _, _) | Shape::Struct(_, _)) => Act::Fill {
                declarator: n,
                name,
                from: fill.from,
                fillers: fill.fillers,
                count: fill.count,
                next,
            },
            _ => Act::Init {
                declarator: n,
                name,
                to: conversion_to(shape),
                next,
            },
        }
    }

    /// Behind the initialiser of an automatic object.
    pub(crate) fn initial_act(&self, n: u32, next: Point) -> Act {
        match (self.local_at(n), declared_type(self.program, n)) {
            (Some(name), Some(t)) => self.filling_act(n, name, t, next),
            _ => Act::Skip { next },
        }
    }

    // Whether the point that comes next is the one after the block `up`.
    fn ends(&self, up: u32, next: Point) -> bool {
        match self.node(up) {
            Node::Block(_) => next == self.after(up),
            _ => false,
        }
    }

    /// Behind a statement `c` or a declarator, a part of `up`: the objects of a block end behind its last part, those of the
    /// clauses of a `for` behind the `for`.
    pub(crate) fn statement_act(&self, c: u32, up: u32, next: Point) -> Act {
        if self.ends(up, next) {
            return self.dropping_all(up, next);
        }
        match self.node(c) {
            Node::For(_, _, _, _) => self.dropping_all(c, next),
            _ => Act::Skip { next },
        }
    }
}
