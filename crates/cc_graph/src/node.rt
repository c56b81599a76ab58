// The steps that a node says, a function for each kind that has a list or cases.
ghost use Rattle.std.specs.Prelude.{◌≡◌, OnOk};
ghost use Rattle.cc_arena.specs.declared.node.Node.TheVariants as node;
ghost use Rattle.cc_graph.specs.Linking.{all_linked, all_told};
ghost use Rattle.cc_graph.specs.Scopes.{or};
ghost use Rattle.cc_graph.specs.Succession as spec;

use crate::parts::{item_parts, start_parts};
use crate::position::{Point, Position, Row};
use crate::scope::{Scope, or};
use crate::steps::{link, link_all, runs, tell, through};
use cc_arena::{Arena, Node, Span};
use cc_base::{List, Memory};
use cc_tree::BinaryOp;
use std::alloc::Global;

fn is_label(node: Option<Node>) -> bool
    ensures { result ≡ spec.is_label node }
{
    match node {
        Some(node) => matches!(node, Node::Case(_) | Node::Default),
        None => false,
    }
}

fn is_default(node: Option<Node>) -> bool
    ensures { result ≡ spec.is_default node }
{
    match node {
        Some(node) => matches!(node, Node::Default),
        None => false,
    }
}

fn items_in(arena: &Arena, node: Option<Node>) -> &[u32]
    ensures { result.now ≡ spec.items_in arena.now node }
{
    match node {
        Some(Node::Block(items)) => arena.part_list(items),
        _ => &[],
    }
}

fn binary(
    next: &mut Vec<List<Point>>,
    rows: &[Row],
    n: u32,
    op: BinaryOp,
    a: u32,
    b: u32,
) -> Result<(), Memory>
    ensures { OnOk result (next.new.items
        ≡ all_linked rows.now (spec.binary_steps op n a b) next.old.items) }
{
    match op {
        BinaryOp::AndAnd | BinaryOp::OrOr => link_all(
            next,
            rows,
            &[
                (Position::Before(n), Position::Before(a)),
                (Position::After(a), Position::Before(b)),
                (Position::After(a), Position::After(n)),
                (Position::After(b), Position::After(n)),
            ],
        ),
        BinaryOp::Int(_) => runs(next, rows, n, &[a, b]),
    }
}

// `c ? a : b`, and `if` with `else`.
fn choice(
    next: &mut Vec<List<Point>>,
    rows: &[Row],
    n: u32,
    c: u32,
    a: u32,
    b: u32,
) -> Result<(), Memory>
    ensures { OnOk result (next.new.items
        ≡ all_linked rows.now (spec.choice n c a b) next.old.items) }
{
    link_all(
        next,
        rows,
        &[
            (Position::Before(n), Position::Before(c)),
            (Position::After(c), Position::Before(a)),
            (Position::After(c), Position::Before(b)),
            (Position::After(a), Position::After(n)),
            (Position::After(b), Position::After(n)),
        ],
    )
}

fn call(
    next: &mut Vec<List<Point>>,
    arena: &Arena,
    rows: &[Row],
    n: u32,
    f: u32,
    arguments: Span,
) -> Result<(), Memory>
    ensures { OnOk result (next.new.items
        ≡ all_linked rows.now
        (spec.says arena.now rows.now n (node.Call f arguments)) next.old.items) }
{
    link(next, rows, Position::At(n), Position::After(n))?;
    link(next, rows, Position::Before(n), Position::Before(f))?;
    let arguments = arena.part_list(arguments);
    through(next, rows, Position::After(f), arguments, Position::At(n))
}

// From the condition of a `for`, if it is there, and from its beginning; `parts` are those of its first clause.
fn for_test(
    next: &mut Vec<List<Point>>,
    rows: &[Row],
    n: u32,
    parts: &[u32],
    test: Option<u32>,
    s: u32,
) -> Result<(), Memory>
    ensures { OnOk result (next.new.items
        ≡ all_linked rows.now (spec.for_test n parts.now test s) next.old.items) }
{
    let round = Position::Before(or(test, s));
    match test {
        Some(c) => {
            link(next, rows, Position::After(c), Position::Before(s))?;
            link(next, rows, Position::After(c), Position::After(n))?;
            through(next, rows, Position::Before(n), parts, round)
        }
        None => through(next, rows, Position::Before(n), parts, round),
    }
}

// From the third clause of a `for`, if it is there, and the same.
fn for_each(
    next: &mut Vec<List<Point>>,
    rows: &[Row],
    n: u32,
    parts: &[u32],
    test: Option<u32>,
    each: Option<u32>,
    s: u32,
) -> Result<(), Memory>
    ensures { OnOk result (next.new.items
        ≡ all_linked rows.now (spec.for_each n parts.now test each s) next.old.items) }
{
    match each {
        Some(e) => {
            let round = Position::Before(or(test, s));
            link(next, rows, Position::After(e), round)?;
            for_test(next, rows, n, parts, test, s)
        }
        None => for_test(next, rows, n, parts, test, s),
    }
}

fn for_loop(
    alloc: Global,
    next: &mut Vec<List<Point>>,
    arena: &Arena,
    rows: &[Row],
    n: u32,
    start: Option<u32>,
    test: Option<u32>,
    each: Option<u32>,
    s: u32,
) -> Result<(), Memory>
    ensures { OnOk result (next.new.items
        ≡ all_linked rows.now
        (spec.says arena.now rows.now n (node.For start test each s)) next.old.items) }
{
    let parts = start_parts(alloc, arena, rows, start)?;
    let onward = Position::Before(or(each, or(test, s)));
    link(next, rows, Position::After(s), onward)?;
    for_each(next, rows, n, parts.as_slice(), test, each, s)
}

fn labels(
    next: &mut Vec<List<Point>>,
    arena: &Arena,
    rows: &[Row],
    e: u32,
    items: &[u32],
) -> Result<(), Memory>
    ensures { OnOk result (next.new.items
        ≡ all_linked rows.now (spec.labels arena.now e items.now) next.old.items) }
{
    for item in items {
        if is_label(arena.node_at(*item)) {
            link(next, rows, Position::After(e), Position::Before(*item))?;
        }
    }
    Ok(())
}

fn has_default(arena: &Arena, items: &[u32]) -> bool
    ensures { result ≡ spec.has_default arena.now items.now }
{
    for item in items {
        if is_default(arena.node_at(*item)) {
            return true;
        }
    }
    false
}

// From the expression of a `switch` to the labels among the items, and to its end where none of them is `default`.
fn chosen(
    next: &mut Vec<List<Point>>,
    arena: &Arena,
    rows: &[Row],
    n: u32,
    e: u32,
    items: &[u32],
) -> Result<(), Memory>
    ensures { OnOk result (next.new.items
        ≡ all_linked rows.now (spec.chosen arena.now n e items.now) next.old.items) }
{
    if has_default(arena, items) {
        labels(next, arena, rows, e, items)
    } else {
        link(next, rows, Position::After(e), Position::After(n))?;
        labels(next, arena, rows, e, items)
    }
}

fn switch(
    next: &mut Vec<List<Point>>,
    arena: &Arena,
    rows: &[Row],
    n: u32,
    e: u32,
    block: u32,
) -> Result<(), Memory>
    ensures { OnOk result (next.new.items
        ≡ all_linked rows.now
        (spec.says arena.now rows.now n (node.Switch e block)) next.old.items) }
{
    link(next, rows, Position::Before(n), Position::Before(e))?;
    link(next, rows, Position::After(block), Position::After(n))?;
    let items = items_in(arena, arena.node_at(block));
    chosen(next, arena, rows, n, e, items)
}

fn block(
    alloc: Global,
    next: &mut Vec<List<Point>>,
    arena: &Arena,
    rows: &[Row],
    n: u32,
    items: Span,
) -> Result<(), Memory>
    ensures { OnOk result (next.new.items
        ≡ all_linked rows.now (spec.says arena.now rows.now n (node.Block items)) next.old.items) }
{
    let parts = item_parts(alloc, arena, rows, arena.part_list(items))?;
    runs(next, rows, n, parts.as_slice())
}

fn option_runs(
    next: &mut Vec<List<Point>>,
    rows: &[Row],
    n: u32,
    part: Option<u32>,
) -> Result<(), Memory>
    ensures { OnOk result (next.new.items
        ≡ all_linked rows.now (spec.runs n (spec.option_list part)) next.old.items) }
{
    match part {
        None => runs(next, rows, n, &[]),
        Some(part) => runs(next, rows, n, &[part]),
    }
}

fn if_then(next: &mut Vec<List<Point>>, rows: &[Row], n: u32, c: u32, s: u32) -> Result<(), Memory>
    ensures { OnOk result (next.new.items
        ≡ all_linked rows.now (spec.if_then n c s) next.old.items) }
{
    link_all(
        next,
        rows,
        &[
            (Position::Before(n), Position::Before(c)),
            (Position::After(c), Position::Before(s)),
            (Position::After(c), Position::After(n)),
            (Position::After(s), Position::After(n)),
        ],
    )
}

fn while_loop(
    next: &mut Vec<List<Point>>,
    rows: &[Row],
    n: u32,
    c: u32,
    s: u32,
) -> Result<(), Memory>
    ensures { OnOk result (next.new.items
        ≡ all_linked rows.now (spec.while_loop n c s) next.old.items) }
{
    link_all(
        next,
        rows,
        &[
            (Position::Before(n), Position::Before(c)),
            (Position::After(c), Position::Before(s)),
            (Position::After(c), Position::After(n)),
            (Position::After(s), Position::Before(c)),
        ],
    )
}

fn do_loop(next: &mut Vec<List<Point>>, rows: &[Row], n: u32, s: u32, c: u32) -> Result<(), Memory>
    ensures { OnOk result (next.new.items
        ≡ all_linked rows.now (spec.do_loop n s c) next.old.items) }
{
    link_all(
        next,
        rows,
        &[
            (Position::Before(n), Position::Before(s)),
            (Position::After(s), Position::Before(c)),
            (Position::After(c), Position::Before(s)),
            (Position::After(c), Position::After(n)),
        ],
    )
}

/// Adds the steps that the node `n` says.
pub(crate) fn link_node(
    alloc: Global,
    next: &mut Vec<List<Point>>,
    arena: &Arena,
    rows: &[Row],
    n: u32,
    node: Node,
) -> Result<(), Memory>
    ensures { OnOk result (next.new.items
        ≡ all_linked rows.now (spec.says arena.now rows.now n node) next.old.items) }
{
    match node {
        Node::Name
        | Node::Int(_, _)
        | Node::Char(_)
        | Node::Str(_)
        | Node::SizeExpr(_)
        | Node::SizeType(_)
        | Node::Empty
        | Node::Break
        | Node::Continue
        | Node::Case(_)
        | Node::Default => runs(next, rows, n, &[]),
        Node::Paren(e)
        | Node::Unary(_, e)
        | Node::Step(_, _, e)
        | Node::Member(e)
        | Node::Arrow(e)
        | Node::Cast(_, e)
        | Node::Plain(e) => runs(next, rows, n, &[e]),
        Node::Assign(_, a, b) | Node::Comma(a, b) | Node::Index(a, b) => {
            runs(next, rows, n, &[a, b])
        }
        Node::Binary(op, a, b) => binary(next, rows, n, op, a, b),
        Node::Cond(c, a, b) | Node::IfElse(c, a, b) => choice(next, rows, n, c, a, b),
        Node::Call(f, arguments) => call(next, arena, rows, n, f, arguments),
        Node::Declared(part) | Node::Return(part) => option_runs(next, rows, n, part),
        Node::Braces(values) => runs(next, rows, n, arena.part_list(values)),
        Node::Block(items) => block(alloc, next, arena, rows, n, items),
        Node::If(c, s) => if_then(next, rows, n, c, s),
        Node::Switch(e, block) => switch(next, arena, rows, n, e, block),
        Node::While(c, s) => while_loop(next, rows, n, c, s),
        Node::Do(s, c) => do_loop(next, rows, n, s, c),
        Node::For(start, test, each, s) => {
            for_loop(alloc, next, arena, rows, n, start, test, each, s)
        }
        Node::Definition(_, block) => {
            through(next, rows, Position::Entry(n), &[block], Position::Exit(n))
        }
        Node::TypeName(_)
        | Node::Word(_)
        | Node::Named
        | Node::Struct(_)
        | Node::Enum(_)
        | Node::Members(_)
        | Node::Constant(_)
        | Node::Pointer(_)
        | Node::Array(_, _)
        | Node::Function(_, _)
        | Node::Group(_)
        | Node::Declaration(_) => Ok(()),
    }
}

fn tell_after(
    next: &mut Vec<List<Point>>,
    rows: &[Row],
    from: Position,
    to: Option<u32>,
) -> Result<(), Memory>
    ensures { OnOk result (next.new.items
        ≡ all_told rows.now (spec.leads_after from to) next.old.items) }
{
    match to {
        Some(m) => tell(next, rows, from, Position::After(m)),
        None => Ok(()),
    }
}

fn tell_before(
    next: &mut Vec<List<Point>>,
    rows: &[Row],
    from: Position,
    to: Option<u32>,
) -> Result<(), Memory>
    ensures { OnOk result (next.new.items
        ≡ all_told rows.now (spec.leads_before from to) next.old.items) }
{
    match to {
        Some(m) => tell(next, rows, from, Position::Before(m)),
        None => Ok(()),
    }
}

fn tell_exit(
    next: &mut Vec<List<Point>>,
    rows: &[Row],
    from: Position,
    to: Option<u32>,
) -> Result<(), Memory>
    ensures { OnOk result (next.new.items
        ≡ all_told rows.now (spec.leads_out from to) next.old.items) }
{
    match to {
        Some(m) => tell(next, rows, from, Position::Exit(m)),
        None => Ok(()),
    }
}

/// Adds the step that the word of a jump says.
pub(crate) fn tell_jump(
    next: &mut Vec<List<Point>>,
    rows: &[Row],
    scope: Scope,
    n: u32,
    node: Node,
) -> Result<(), Memory>
    ensures { OnOk result (next.new.items
        ≡ all_told rows.now (spec.jump scope n node) next.old.items) }
{
    match node {
        Node::Break => tell_after(next, rows, Position::After(n), scope.leaves),
        Node::Continue => tell_before(next, rows, Position::After(n), scope.goes_on),
        Node::Return(_) => tell_exit(next, rows, Position::After(n), scope.function),
        _ => Ok(()),
    }
}
