// The acts of calls, and of the functions that are called.
use crate::look::Look;
use cc_acts::{Act, Conversion};
use cc_arena::Node;
use cc_arith::IntKind;
use cc_graph::{Point, Position};
use cc_layout::{conversion_at, inside};
use cc_program::{FuncId, FunctionKind, Referent};
use cc_roles::is_used;

// The kind of a result that the environment gives.
fn kind_of(given: Conversion) -> Option<IntKind> {
    match given {
        Conversion::Integer(kind) => Some(kind),
        Conversion::Pointer | Conversion::Void => None,
    }
}

impl<'a> Look<'a> {
    // The function of the environment that a designator names.
    fn environment_function(&self, f: u32) -> Option<FuncId> {
        match self.program.names(inside(self.program, f)) {
            Some(Referent::Function(g)) => match self.program.function(g) {
                Some(function) if function.kind == FunctionKind::Environment => Some(g),
                _ => None,
            },
            _ => None,
        }
    }

    // A call, with `count` arguments. The type of a call is its function's result.
    fn call_act(&self, n: u32, f: u32, count: u32, next: Point) -> Act {
        let given = conversion_at(self.program, n);
        match self.environment_function(f) {
            Some(callee) => Act::Ask {
                occ: n,
                callee,
                count,
                result: kind_of(given),
                next,
            },
            None => Act::Call {
                occ: n,
                count,
                is_used: !matches!(given, Conversion::Void) && is_used(self.program, n),
                next,
            },
        }
    }

    /// The act at a call.
    pub(crate) fn act_at(&self, n: u32, next: Point) -> Act {
        match self.node(n) {
            Node::Call(f, list) => {
                let count = list.end.saturating_sub(list.start);
                self.call_act(n, f, count, next)
            }
            _ => Act::Skip { next },
        }
    }

    /// Behind an argument: it becomes one of the parameter's type. Behind what is called, nothing.
    pub(crate) fn argument_act(&self, c: u32, next: Point) -> Act {
        match self.passing.arguments.get(c) {
            Some(Some(to)) => Act::Convert { occ: c, to, next },
            _ => Act::Skip { next },
        }
    }

    // The function that is defined at a node.
    fn defined_at(&self, d: u32) -> Option<u32> {
        self.sides.owners.get(d).unwrap_or(None)
    }

    /// The act at the entry of the function that is defined at a node.
    pub(crate) fn entry_act(&self, d: u32, next: Point) -> Act {
        match (self.defined_at(d), self.node(d)) {
            (Some(f), Node::Definition(_, block)) => match self.sides.entries.get(f) {
                Some(formals) => Act::Enter {
                    callee: FuncId(f),
                    from: formals.from,
                    formals: formals.count,
                    names: self.end_name(block),
                    next,
                },
                None => Act::Skip { next },
            },
            _ => Act::Skip { next },
        }
    }

    /// The act at its exit.
    pub(crate) fn exit_act(&self, d: u32) -> Act {
        match self.node(d) {
            Node::Definition(_, block) => Act::Leave {
                names: self.end_name(block),
            },
            _ => Act::Skip { next: 0 },
        }
    }

    // How what a `return` gives becomes the result of its function: the graph says which one it leaves.
    fn result_at(&self, n: u32) -> Conversion {
        match self.graph.position(self.next(self.after(n))) {
            Some(Position::Exit(d)) => match self.defined_at(d) {
                Some(f) => self.passing.results.get(f).unwrap_or(Conversion::Void),
                None => Conversion::Void,
            },
            _ => Conversion::Void,
        }
    }

    /// Behind what a `return` gives.
    pub(crate) fn return_act(&self, n: u32, next: Point) -> Act {
        Act::Return {
            occ: n,
            to: self.result_at(n),
            next,
        }
    }
}
