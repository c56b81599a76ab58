// Arguments of calls, and whether their values are used.
ghost use Rattle.std.specs.Prelude.{◌≡◌};
ghost use Rattle.cc_roles.specs.Calls as spec;

use cc_arena::Node;
use cc_program::Program;
use cc_types::{ExprType, Shape};

/// The arguments of a call, in order.
pub fn arguments(program: &Program, site: u32) -> &[u32]
    ensures { result.now ≡ spec.arguments program.now.arena site }
{
    match program.node(site) {
        Some(Node::Call(_, span)) => program.arena().part_list(span),
        _ => &[],
    }
}

fn is_void_shape(shape: Shape) -> bool
    ensures { result ≡ spec.is_void_shape shape }
{
    match shape {
        Shape::Void(_) => true,
        _ => false,
    }
}

// Whether the type name names the type void.
fn is_void(program: &Program, type_name: u32) -> bool
    ensures { result ≡ spec.is_void program.now type_name }
{
    match program.kind_of(type_name) {
        Some(ty) => is_void_shape(program.types().shape(ty)),
        None => false,
    }
}

/// What becomes of a node's value in the node that it is a part of.
#[derive(Clone, Copy)]
pub enum Fate {
    /// It is the value of that node.
    Handed,
    /// It is dropped.
    Dropped,
    /// It is used.
    Used,
}

fn is_it(part: Option<u32>, node: u32) -> bool
    ensures { result ≡ spec.is_it part node }
{
    match part {
        Some(part) => part == node,
        None => false,
    }
}

// What becomes of the value of the part `node` of another node.
fn fate_of(program: &Program, node: u32, around: Option<Node>) -> Fate
    ensures { result ≡ spec.fate program.now node around }
{
    match around {
        Some(Node::Paren(_)) => Fate::Handed,
        Some(Node::Plain(_)) | Some(Node::Comma(_, _)) => Fate::Dropped,
        Some(Node::Cast(type_name, _)) => {
            if is_void(program, type_name) {
                Fate::Dropped
            } else {
                Fate::Used
            }
        }
        Some(Node::For(first, _, step, _)) => {
            if is_it(first, node) || is_it(step, node) {
                Fate::Dropped
            } else {
                Fate::Used
            }
        }
        _ => Fate::Used,
    }
}

// Whether the call has no value: its function's result is void.
fn has_none(program: &Program, site: u32) -> bool
    ensures { result ≡ spec.has_none program.now site }
{
    match program.type_of(site) {
        Some(ExprType::Plain(shape)) => is_void_shape(shape),
        Some(ExprType::Address(_)) | None => false,
    }
}

// Whether the value of an expression is used, by the nodes around it.
#[tactic(auto, using(crate::proofs::Steps::used_step, crate::proofs::Steps::used_dropped, crate::proofs::Steps::used_used, crate::proofs::Steps::used_none, crate::proofs::Steps::used_end))]
fn is_taken(program: &Program, site: u32) -> bool
    ensures { result ≡ spec.is_taken program.now site }
{
    let mut at = site;
    for _ in 0..program.arena().nodes.len() {
        let Some(around) = program.parent_of(at) else {
            return true;
        };
        match fate_of(program, at, program.node(around)) {
            Fate::Handed => at = around,
            Fate::Dropped => return false,
            Fate::Used => return true,
        }
    }
    true
}

/// Whether a call has a value that is used. It is not used where the call, parentheses aside, is a whole expression
/// statement, a whole first or third clause of a `for` or an operand of the comma there, or the operand of a cast to void.
pub fn is_used(program: &Program, site: u32) -> bool
    ensures { result ≡ spec.is_used program.now site }
{
    !has_none(program, site) && is_taken(program, site)
}
