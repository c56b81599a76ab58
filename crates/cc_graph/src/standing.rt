// Which nodes are evaluated.
ghost use Rattle.std.specs.Prelude.{◌≡◌, ◌<◌, ◌^◌, [], length, IfOk};
ghost use Rattle.cc_arena_rules.specs.Inherited.{answer_at, inherited_from, IsInherited};
ghost use Rattle.cc_graph.specs.Evaluated as spec;

use cc_arena::{Node, Placed};
use cc_base::Memory;
use cc_program::{Program, Referent, VarId};
use cc_symbols::{Life, Slots};
use std::alloc::Global;

/// How a node stands in what runs.
#[derive(Clone, Copy)]
pub enum Standing {
    /// It isn't evaluated, and nothing in it is.
    Unevaluated,
    /// A declaration of a body, or a form of a declarator there: it has no points of its own, the name in it may have some.
    Declaring,
    /// A statement, a label, an initialiser or an expression that is evaluated, or the name of an automatic object where it
    /// is declared.
    Evaluated,
    /// A function with its body.
    Defining,
}

fn is_local(program: &Program, v: VarId) -> bool
    ensures { result ≡ spec.is_local program.now v }
{
    match program.variable(v) {
        Some(variable) => variable.life == Life::Local,
        None => false,
    }
}

// Whether the node `n` names an automatic object.
fn is_automatic(program: &Program, n: u32) -> bool
    ensures { result ≡ spec.is_automatic program.now n }
{
    match program.names(n) {
        Some(Referent::Variable(v)) => is_local(program, v),
        _ => false,
    }
}

fn evaluated_if(holds: bool) -> Standing
    ensures { result ≡ spec.evaluated_if holds }
{
    if holds {
        Standing::Evaluated
    } else {
        Standing::Unevaluated
    }
}

// The part `n` of a function with its body.
fn standing_in_definition(above: Node, n: u32) -> Standing
    ensures { result ≡ spec.standing_in_definition above n }
{
    match above {
        Node::Definition(_, block) => evaluated_if(block == n),
        _ => Standing::Unevaluated,
    }
}

// The part `n`, which is `what`, of a declaration or of a form of a declarator.
fn standing_in_declaration(program: &Program, n: u32, what: Node) -> Standing
    ensures { result ≡ spec.standing_in_declaration program.now n what }
{
    match what {
        Node::Declared(_) => evaluated_if(is_automatic(program, n)),
        Node::Pointer(_) | Node::Array(_, _) | Node::Function(_, _) | Node::Group(_) => {
            Standing::Declaring
        }
        _ => Standing::Unevaluated,
    }
}

fn evaluated_or_declaring(what: Node) -> Standing
    ensures { result ≡ spec.evaluated_or_declaring what }
{
    match what {
        Node::Declaration(_) => Standing::Declaring,
        _ => Standing::Evaluated,
    }
}

// The part `n`, which is `what`, of `above`, which is evaluated.
fn standing_in_evaluated(above: Node, n: u32, what: Node) -> Standing
    ensures { result ≡ spec.standing_in_evaluated above n what }
{
    match above {
        Node::SizeExpr(_) | Node::SizeType(_) | Node::Case(_) => Standing::Unevaluated,
        Node::Cast(_, e) => evaluated_if(e == n),
        _ => evaluated_or_declaring(what),
    }
}

// The part `n`, which is `what`, of `above`, which itself stands as `own` says.
fn standing_in(program: &Program, above: Node, n: u32, what: Node, own: Standing) -> Standing
    ensures { result ≡ spec.standing_in program.now above n what own }
{
    match own {
        Standing::Unevaluated => Standing::Unevaluated,
        Standing::Declaring => standing_in_declaration(program, n, what),
        Standing::Evaluated => standing_in_evaluated(above, n, what),
        Standing::Defining => standing_in_definition(above, n),
    }
}

fn is_definition(node: Node) -> bool
    ensures { result ≡ spec.is_definition node }
{
    matches!(node, Node::Definition(_, _))
}

// The node `n`, which is `what`, a part of `above`, if it is there, which stands as `own` says.
fn standing_below(
    program: &Program,
    above: Option<Node>,
    n: u32,
    what: Node,
    own: Option<Standing>,
) -> Standing
    ensures { result ≡ spec.standing_below program.now above n what own }
{
    match (above, own) {
        (Some(above), Some(own)) => standing_in(program, above, n, what, own),
        _ => Standing::Unevaluated,
    }
}

// The node `n`, which is `placed`; `own` is how the node stands of which it is a part.
fn standing_of(program: &Program, n: u32, placed: Placed, own: Option<Standing>) -> Standing
    ensures { result ≡ spec.standing_of program.now n placed own }
{
    if is_definition(placed.node) {
        Standing::Defining
    } else {
        let above = program.node(placed.parent);
        standing_below(program, above, n, placed.node, own)
    }
}

fn standing_at(standings: &[Standing], n: u32) -> Option<Standing>
    ensures { result ≡ answer_at standings.now 0 n }
{
    standings.get(n as usize).copied()
}

fn all_standings(
    alloc: Global,
    program: &Program,
    nodes: &[Placed],
) -> Result<Slots<Standing>, Memory>
    requires { length nodes.now < 2 ^ 30 }
    ensures { IfOk result (λ all. all
        ≡ inherited_from (spec.standing_of program.now) 0 nodes.now 0 []) }
{
    let mut all = Slots::new(alloc);
    for (n, placed) in nodes.iter().enumerate() {
        let own = standing_at(all.as_slice(), placed.parent);
        all.push(standing_of(program, n as u32, *placed, own))?;
    }
    Ok(all)
}

/// How each node stands.
pub(crate) fn standings(alloc: Global, program: &Program) -> Result<Slots<Standing>, Memory>
    requires { length program.now.arena.nodes < 2 ^ 30 }
    ensures all { IfOk result (λ all. all ≡ spec.standings program.now) }
    ensures each { IfOk result (λ all.
        IsInherited (spec.standing_of program.now) 0 program.now.arena.nodes all) }
{
    let all = all_standings(alloc, program, program.arena().nodes.as_slice())?;
    Ok(all)
}
