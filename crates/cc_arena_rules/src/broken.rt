// One function for each rule: whether it is broken at a node.
ghost use Rattle.std.specs.Prelude.{◌≡◌};
ghost use Rattle.cc_arena_rules.specs.Broken as spec;

use crate::around::{Around, Extent, Standing};
use crate::below::is_null_cast;
use crate::look::{inside, is_automatic, is_struct, is_typed, named, type_at};
use cc_arena::{Arena, Node};
use cc_symbols::{Findings, Slots, Symbols};
use cc_tree::{AssignOp, UnaryOp};
use cc_types::ExprType;

/// What rules are judged by: the nodes, what is known of them, of which variables the address is taken, and which nodes of a
/// stretch that begins with the node `start` are names that stand twice in a full expression.
#[derive(Clone, Copy)]
pub(crate) struct Judging<'a> {
    pub arena: &'a Arena,
    pub symbols: &'a Symbols,
    pub found: &'a Findings,
    pub taken: &'a [bool],
    pub repeats: &'a [bool],
    pub start: u32,
}

// C28: `break` or `continue` stands outside what it leaves or continues.
pub(crate) fn breaks_jump(node: Node, around: Around) -> bool
    ensures { result ≡ spec.breaks_jump node around }
{
    match node {
        Node::Break => !around.may_break,
        Node::Continue => !around.may_continue,
        _ => false,
    }
}

// C29 of labels: a label stands in a block that isn't a switch's own.
pub(crate) fn breaks_label(arena: &Arena, found: &Findings, node: Node, parent: u32) -> bool
    ensures { result ≡ spec.breaks_label arena.now found.now node parent }
{
    match node {
        Node::Case(e) => is_typed(found, e) && !is_switch_block(arena, parent),
        Node::Default => !is_switch_block(arena, parent),
        _ => false,
    }
}

fn is_switch_block(arena: &Arena, block: u32) -> bool
    ensures { result ≡ spec.is_switch_block arena.now block }
{
    match arena.parent_at(block) {
        Some(up) => is_switch_of(arena.node_at(up), block),
        None => false,
    }
}

fn is_switch_of(node: Option<Node>, block: u32) -> bool
    ensures { result ≡ spec.is_switch_of node block }
{
    match node {
        Some(Node::Switch(_, own)) => own == block,
        _ => false,
    }
}

fn is_name(node: Option<Node>) -> bool
    ensures { result ≡ spec.is_name node }
{
    match node {
        Some(Node::Name) => true,
        _ => false,
    }
}

fn is_scalar(symbols: &Symbols, t: Option<ExprType>) -> bool
    ensures { result ≡ spec.is_scalar symbols.now t }
{
    match t {
        Some(t) => symbols.types.is_scalar(t),
        None => false,
    }
}

fn flag_at(flags: &[bool], n: u32) -> bool
    ensures { result ≡ spec.flag_at flags.now n }
{
    match flags.get(n as usize).copied() {
        Some(flag) => flag,
        None => false,
    }
}

fn is_taken(taken: &[bool], declaration: Option<u32>) -> bool
    ensures { result ≡ spec.is_taken taken.now declaration }
{
    match declaration {
        Some(d) => flag_at(taken, d),
        None => false,
    }
}

fn is_repeated(repeats: &[bool], start: u32, n: u32) -> bool
    ensures { result ≡ spec.is_repeated repeats.now start n }
{
    start <= n && flag_at(repeats, n - start)
}

// Whether it is the name of an automatic scalar.
fn is_local_scalar(judging: &Judging, n: u32) -> bool
    ensures { result ≡ spec.is_local_scalar judging.now.arena.now judging.now.symbols.now judging.now.found.now n }
{
    is_name(judging.arena.node_at(n))
        && is_automatic(judging.symbols, n)
        && is_scalar(judging.symbols, type_at(judging.found, n))
}

// Whether it is the name of an automatic scalar whose address is never taken, and that its full expression names nowhere else.
fn is_free(judging: &Judging, n: u32) -> bool
    ensures { result ≡ spec.is_free (spec.judged judging.now) n }
{
    is_local_scalar(judging, n)
        && !is_taken(judging.taken, named(judging.symbols, n))
        && !is_repeated(judging.repeats, judging.start, n)
}

fn is_inside(standing: Standing) -> bool
    ensures { result ≡ spec.is_inside standing }
{
    match standing {
        Standing::Inside => true,
        _ => false,
    }
}

fn is_whole(extent: Extent) -> bool
    ensures { result ≡ spec.is_whole extent }
{
    match extent {
        Extent::Expression(_) => true,
        _ => false,
    }
}

// Whether an assignment to this target, or a step of it, is neither outer nor allowed inside.
fn is_out_of_place(judging: &Judging, target: u32, around: Around) -> bool
    ensures { result ≡ spec.is_out_of_place (spec.judged judging.now) target around }
{
    is_inside(around.standing)
        && !(is_whole(around.extent) && is_free(judging, inside(judging.arena, target)))
}

// C33: an assignment or step is neither outer nor allowed inside.
pub(crate) fn breaks_assignment(judging: &Judging, node: Node, around: Around) -> bool
    ensures { result ≡ spec.breaks_assignment (spec.judged judging.now) node around }
{
    match node {
        Node::Assign(_, target, value) => {
            is_typed(judging.found, target)
                && is_typed(judging.found, value)
                && is_out_of_place(judging, target, around)
        }
        Node::Step(_, _, target) => {
            is_typed(judging.found, target) && is_out_of_place(judging, target, around)
        }
        _ => false,
    }
}

fn is_clause(standing: Standing) -> bool
    ensures { result ≡ spec.is_clause standing }
{
    match standing {
        Standing::Clause => true,
        _ => false,
    }
}

// C34: a comma operator stands elsewhere than at the top of a first or third `for` clause.
pub(crate) fn breaks_comma(found: &Findings, node: Node, around: Around) -> bool
    ensures { result ≡ spec.breaks_comma found.now node around }
{
    match node {
        Node::Comma(a, b) => {
            is_typed(found, a) && is_typed(found, b) && !is_clause(around.standing)
        }
        _ => false,
    }
}

// C49 of `(void *)0`: it stands where no null constant is meant.
pub(crate) fn breaks_null(
    symbols: &Symbols,
    found: &Findings,
    node: Node,
    n: u32,
    around: Around,
) -> bool
    ensures { result ≡ spec.breaks_null symbols.now found.now node n around }
{
    is_null_cast(symbols, found, node, n) && !around.may_be_null
}

fn has_const_part(symbols: &Symbols, t: Option<ExprType>) -> bool
    ensures { result ≡ spec.has_const_part symbols.now t }
{
    match t {
        Some(ExprType::Plain(shape)) => {
            symbols
                .structs
                .measure(&symbols.types, shape)
                .has_const_part
        }
        _ => false,
    }
}

// Whether it is an lvalue by its form. (A member of what is no lvalue comes only where a rule is broken before it.)
fn is_place(node: Node) -> bool
    ensures { result ≡ spec.is_place node }
{
    match node {
        Node::Name | Node::Index(_, _) | Node::Member(_) | Node::Arrow(_) => true,
        Node::Unary(UnaryOp::Deref, _) => true,
        _ => false,
    }
}

// C52: a struct is used as a value, or one with a const part is assigned.
pub(crate) fn breaks_struct(
    symbols: &Symbols,
    found: &Findings,
    node: Node,
    n: u32,
    around: Around,
) -> bool
    ensures { result ≡ spec.breaks_struct symbols.now found.now node n around }
{
    match node {
        Node::Assign(AssignOp::Plain, target, value) => {
            is_typed(found, value)
                && is_struct(type_at(found, target))
                && has_const_part(symbols, type_at(found, target))
        }
        _ => is_place(node) && is_struct(type_at(found, n)) && around.is_value,
    }
}
