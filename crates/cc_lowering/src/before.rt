// The act at the point before a node: a node without parts gives its value.
use crate::look::Look;
use cc_acts::{Act, Named};
use cc_arena::Node;
use cc_graph::{Point, Position};
use cc_layout::{cells_of, declared_type, fills_array, gives_at, lasting_place, size_at};
use cc_program::{Referent, VarId};
use cc_store::Value;

impl<'a> Look<'a> {
    fn constant(&self, n: u32, value: Value, next: Point) -> Act {
        Act::Constant {
            occ: n,
            value,
            next,
        }
    }

    // An lvalue whose object has been made.
    fn object_act(&self, n: u32, object: Option<Named>, next: Point) -> Act {
        match object {
            Some(object) => Act::Name {
                occ: n,
                object,
                gives: gives_at(self.program, n),
                next,
            },
            None => Act::Skip { next },
        }
    }

    // The object that was made at a declarator or a string literal before the first call.
    fn lasting_at(&self, n: u32) -> Option<Named> {
        match lasting_place(self.numbers, n) {
            Some(place) => Some(Named::Static(place)),
            None => None,
        }
    }

    // Where the object of a variable is.
    fn object_of(&self, v: VarId) -> Option<Named> {
        match (self.name_of(v), self.program.variable(v)) {
            (Some(name), _) => Some(Named::Local(name)),
            (None, Some(variable)) => self.lasting_at(variable.declarator),
            (None, None) => None,
        }
    }

    fn name_act(&self, n: u32, next: Point) -> Act {
        match self.program.names(n) {
            Some(Referent::Constant(z)) => self.constant(n, Value::Int(i128::from(z)), next),
            Some(Referent::Function(f)) => self.constant(n, Value::Function(f), next),
            Some(Referent::Variable(v)) => self.object_act(n, self.object_of(v), next),
            None => Act::Skip { next },
        }
    }

    // A string literal. One that initialises an array has no value: the array is filled with its bytes.
    fn string_act(&self, n: u32, next: Point) -> Act {
        if fills_array(self.program, &self.numbers.targets, n) {
            return Act::Skip { next };
        }
        self.object_act(n, self.lasting_at(n), next)
    }

    // The object of a declarator is made.
    fn make_act(&self, n: u32, next: Point) -> Act {
        match (self.local_at(n), declared_type(self.program, n)) {
            (Some(name), Some(t)) => Act::Make {
                declarator: n,
                cells: cells_of(self.program, self.program.types().shape(t)),
                name,
                next,
            },
            _ => Act::Skip { next },
        }
    }

    // The loop or `switch` that a `break` leaves, or the loop that a `continue` goes on with: the graph says where its word
    // leads.
    fn jumped_from(&self, n: u32) -> u32 {
        match self.graph.position(self.next(self.after(n))) {
            Some(Position::After(left)) => left,
            Some(Position::Before(part)) => self.up(part),
            _ => n,
        }
    }

    // A `break` or `continue` ends the objects between it and its loop or `switch`. Those of the clauses of a `for` end behind
    // the `for`.
    fn jump_act(&self, n: u32, next: Point) -> Act {
        match self.node(self.jumped_from(n)) {
            Node::While(_, body)
            | Node::Do(body, _)
            | Node::For(_, _, _, body)
            | Node::Switch(_, body) => {
                self.dropping(self.first_name(body), self.first_name(n), next)
            }
            _ => Act::Skip { next },
        }
    }

    /// The act at the point before a node.
    pub(crate) fn act_before(&self, n: u32, next: Point) -> Act {
        let node = self.node(n);
        match node {
            Node::Name => self.name_act(n, next),
            Node::Int(z, _) | Node::Char(z) => self.constant(n, Value::Int(z), next),
            Node::Str(_) => self.string_act(n, next),
            Node::SizeExpr(_) | Node::SizeType(_) => {
                self.constant(n, Value::Int(size_at(self.program, node)), next)
            }
            Node::Declared(_) => self.make_act(n, next),
            Node::Break | Node::Continue => self.jump_act(n, next),
            Node::Return(None) => Act::ReturnNone { occ: n, next },
            _ => Act::Skip { next },
        }
    }
}
