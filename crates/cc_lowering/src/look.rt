// What is read to find the act of a point.
use crate::passing::Passing;
use cc_acts::Act;
use cc_arena::Node;
use cc_graph::{Graph, Point};
use cc_layout::{Numbers, Sides};
use cc_program::{Program, Referent, VarId};
use cc_symbols::Life;

/// What is read to find the act of a point. All look-ups are total: a point that isn't there is the root, a node `;`.
#[derive(Clone, Copy)]
pub(crate) struct Look<'a> {
    pub program: &'a Program,
    pub graph: &'a Graph,
    pub numbers: &'a Numbers,
    pub sides: &'a Sides,
    pub passing: &'a Passing,
}

impl<'a> Look<'a> {
    /// The one point that comes next; where there are several, the first.
    pub(crate) fn next(&self, p: Point) -> Point {
        match self.graph.next_within(p).get(0) {
            Some(next) => *next,
            None => 0,
        }
    }

    pub(crate) fn before(&self, n: u32) -> Point {
        self.graph.before(n).unwrap_or(0)
    }

    pub(crate) fn after(&self, n: u32) -> Point {
        self.graph.after(n).unwrap_or(0)
    }

    pub(crate) fn node(&self, n: u32) -> Node {
        self.program.node(n).unwrap_or(Node::Empty)
    }

    /// The node that this is a part of, declarations and the forms of declarators aside, which have no points.
    pub(crate) fn up(&self, n: u32) -> u32 {
        let mut inner = n;
        for _ in 0..self.program.occurrences() {
            let up = self.program.parent_of(inner).unwrap_or(inner);
            match self.node(up) {
                Node::Declaration(_)
                | Node::Pointer(_)
                | Node::Array(_, _)
                | Node::Function(_, _)
                | Node::Group(_) => inner = up,
                _ => return up,
            }
        }
        inner
    }

    /// The number of a variable among the names of its function; none of a static object.
    pub(crate) fn name_of(&self, v: VarId) -> Option<u32> {
        match self.program.variable(v) {
            Some(variable) => match variable.life {
                Life::Static => None,
                Life::Local | Life::Formal | Life::Parameter => self.numbers.names.get(v.0),
            },
            None => None,
        }
    }

    /// The number among the names of its function of what is declared at a node; none of a static object.
    pub(crate) fn local_at(&self, n: u32) -> Option<u32> {
        match self.node(n) {
            Node::Declared(_) => match self.program.names(n) {
                Some(Referent::Variable(v)) => self.name_of(v),
                _ => None,
            },
            _ => None,
        }
    }

    /// How many names of its function are declared before a node.
    pub(crate) fn first_name(&self, n: u32) -> u32 {
        self.numbers.firsts.get(n).unwrap_or(0)
    }

    /// How many names of its function are declared before a node and in it.
    pub(crate) fn end_name(&self, n: u32) -> u32 {
        let last = self.numbers.ends.get(n).unwrap_or(0).saturating_sub(1);
        match self.local_at(last) {
            Some(name) => name.saturating_add(1),
            None => self.first_name(last),
        }
    }

    /// The objects of the names from number `from` up to before number `to` end.
    pub(crate) fn dropping(&self, from: u32, to: u32, next: Point) -> Act {
        if from < to {
            Act::Drop {
                from,
                count: to - from,
                next,
            }
        } else {
            Act::Skip { next }
        }
    }

    /// The objects of a statement and of all that is in it end.
    pub(crate) fn dropping_all(&self, n: u32, next: Point) -> Act {
        self.dropping(self.first_name(n), self.end_name(n), next)
    }
}
