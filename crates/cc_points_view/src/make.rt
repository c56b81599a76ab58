// The view of a program.
ghost use Rattle.std.specs.Prelude.{◌≡◌, ◌+◌, ◌<◌, ◌≤◌, ◌^◌, [], length, slice_get, OnOk, IfOk};
ghost use Rattle.cc_parts.specs.Objects.{parts_of_program};
ghost use Rattle.cc_points_view.specs.Functions as functions;
ghost use Rattle.cc_points_view.specs.Views as spec;

use crate::functions::{Tables, bodies_of, put_functions};
use crate::initialisers::put_initialisers;
use crate::paths::put_paths;
use crate::seeing::{class_of, seen_of, what_of};
use crate::standing::{Standing, standings};
use cc_arena::{Node, Placed, Span};
use cc_arena_rules::{Around, surroundings};
use cc_base::Memory;
use cc_parts::{Parts, parts_of_program};
use cc_points_base::{Class, Seen, View, What};
use cc_program::Program;
use cc_symbols::Slots;
use std::alloc::Global;

// The whole object of the string literal that is the object of this number.
fn literal_at(parts: &Parts, object: u32) -> u32
    ensures { result ≡ spec.literal_at parts.now object }
{
    match parts.object_at(object) {
        Some(object) => object.first,
        None => u32::MAX,
    }
}

// The number of the object that comes after a node.
fn after(node: Node, object: u32) -> u32
    ensures { result ≡ spec.after node object }
{
    match node {
        Node::Str(_) => object.saturating_add(1),
        _ => object,
    }
}

// Whether all these are below a count.
fn all_below(count: u32, list: &[u32]) -> bool
    ensures { result ≡ spec.all_below count list.now }
{
    for n in list {
        if *n >= count {
            return false;
        }
    }
    true
}

// Whether the parts of an occurrence are occurrences, and its function is one.
fn is_within(count: u32, functions: u32, lists: &[u32], what: What) -> bool
    ensures { result ≡ spec.is_within count functions lists.now what }
{
    match what {
        What::Paren(e)
        | What::Address(e)
        | What::Deref(e)
        | What::Index(e)
        | What::Offset(e)
        | What::Comma(e) => e < count,
        What::Member(e, _) | What::Arrow(e, _) => e < count,
        What::Assign(a, b) | What::Cond(a, b) => a < count && b < count,
        What::Call(f, args) => f < count && all_below(count, stretch(lists, args)),
        What::Return(i, e) => i < functions && e < count,
        What::Init(_, _) => false,
        What::Name(_) | What::Designator(_) | What::Other => true,
    }
}

// The list that stands at a span; none where there is no such one.
fn stretch(lists: &[u32], span: Span) -> &[u32]
    ensures { result.now ≡ spec.stretch lists.now span }
{
    let start = span.start as usize;
    let end = span.end as usize;
    if start <= end && end <= lists.len() {
        &lists[start..end]
    } else {
        &[]
    }
}

// An occurrence whose parts aren't all there is one of which no rule speaks.
fn guarded(count: u32, functions: u32, lists: &[u32], seen: Seen) -> Seen
    ensures { result ≡ spec.guarded count functions lists.now seen }
{
    if is_within(count, functions, lists, seen.what) {
        seen
    } else {
        Seen {
            what: What::Other,
            class: Class::Other,
            used: false,
        }
    }
}

fn is_value(around: Option<Around>) -> bool
    ensures { result ≡ spec.is_value around }
{
    match around {
        Some(around) => around.is_value,
        None => false,
    }
}

// What is known of all nodes before any is seen.
#[derive(Drop)]
struct Known<'a> {
    program: &'a Program,
    parts: &'a Parts,
    tables: &'a Tables,
    standings: &'a [Standing],
    around: &'a [Around],
    count: u32,
    functions: u32,
}

fn standing_at(standings: &[Standing], n: u32) -> Option<Standing>
    ensures { result ≡ slice_get standings.now n }
{
    standings.get(n as usize).copied()
}

fn around_at(around: &[Around], n: u32) -> Option<Around>
    ensures { result ≡ slice_get around.now n }
{
    around.get(n as usize).copied()
}

// What the rules see of the node `n`, where `object` is the number of the next literal.
fn seen_at(known: &Known, n: u32, object: u32, node: Node, standing: Standing) -> Seen
    ensures { result ≡ spec.seen_at known.now.program.now known.now.parts.now known.now.tables.now
        known.now.around.now known.now.count known.now.functions n object node standing }
{
    let literal = literal_at(known.parts, object);
    let what = what_of(
        known.program,
        known.parts,
        literal,
        n,
        node,
        standing.function,
    );
    let class = class_of(known.tables.paths.as_slice(), known.program.type_of(n));
    let is_value = is_value(around_at(known.around, n));
    let seen = seen_of(known.parts, standing, is_value, what, class);
    guarded(
        known.count,
        known.functions,
        known.tables.lists.as_slice(),
        seen,
    )
}

fn seen_if(known: &Known, n: u32, object: u32, node: Node) -> Seen
    ensures { result ≡ spec.seen_if known.now.program.now known.now.parts.now known.now.tables.now
        known.now.around.now known.now.count known.now.functions n object node
        (slice_get known.now.standings.now n) }
{
    match standing_at(known.standings, n) {
        Some(standing) => seen_at(known, n, object, node, standing),
        None => unseen(),
    }
}

fn unseen() -> Seen
    ensures { result ≡ spec.unseen }
{
    Seen {
        what: What::Other,
        class: Class::Other,
        used: false,
    }
}

// Puts what the rules see of these nodes at the end; `first` is the number of the first literal among the objects.
fn put_seen(
    nodes: &mut Slots<Seen>,
    known: &Known,
    first: u32,
    placed: &[Placed],
) -> Result<(), Memory>
    requires { length placed.now < 2 ^ 32 }
    ensures { OnOk result (nodes.new ≡ spec.with_seen known.now.program.now known.now.parts.now known.now.tables.now
        known.now.around.now known.now.count known.now.functions known.now.standings.now placed.now 0 first nodes.old) }
{
    let mut n: u32 = 0;
    let mut object = first;
    for x in placed {
        nodes.push(seen_if(known, n, object, x.node))?;
        object = after(x.node, object);
        n += 1;
    }
    Ok(())
}

// The lists of the arena, copied.
fn put_lists(lists: &mut Slots<u32>, old: &[u32]) -> Result<(), Memory>
    ensures { OnOk result (lists.new ≡ spec.copied old.now lists.old) }
{
    for number in old {
        lists.push(*number)?;
    }
    Ok(())
}

// The lists, the functions with their formals, and the pointers of each struct type.
fn tables_of(alloc: Global, program: &Program, parts: &Parts) -> Result<Tables, Memory>
    ensures { IfOk result (λ tables. tables ≡ spec.tables_of program.now parts.now) }
{
    let mut tables = Tables {
        lists: Slots::new(alloc),
        functions: Slots::new(alloc),
        paths: Slots::new(alloc),
    };
    put_lists(&mut tables.lists, program.arena.lists.as_slice())?;
    put_functions(&mut tables, parts, program.functions.as_slice())?;
    put_paths(&mut tables, parts.parts.as_slice())?;
    Ok(tables)
}

// A count as a number, if one can say it.
fn small(count: usize) -> Result<u32, Memory>
    ensures { IfOk result (λ n. n ≡ count) }
{
    if count < u32::MAX as usize {
        Ok(count as u32)
    } else {
        Err(Memory)
    }
}

// What the rules see of all nodes, and after them the initialisers.
fn nodes_of(
    alloc: Global,
    program: &Program,
    parts: &Parts,
    tables: &Tables,
) -> Result<Slots<Seen>, Memory>
    ensures { IfOk result (λ nodes. nodes ≡ spec.nodes_of program.now parts.now tables.now) }
{
    let placed = program.arena.nodes.as_slice();
    let count = small(placed.len())?;
    let functions = small(program.functions.as_slice().len())?;
    let first = small(program.variables.as_slice().len())?;
    let bodies = bodies_of(alloc, program.functions.as_slice(), count)?;
    let standings = standings(alloc, program, parts, bodies.as_slice(), placed)?;
    let known = &program.known;
    let around = surroundings(
        alloc,
        &program.arena,
        &known.symbols,
        &known.found,
        0,
        count,
    )?;
    let known = Known {
        program,
        parts,
        tables,
        standings: standings.as_slice(),
        around: around.as_slice(),
        count,
        functions,
    };
    let mut nodes = Slots::new(alloc);
    put_seen(&mut nodes, &known, first, placed)?;
    put_initialisers(&mut nodes, parts, standings.as_slice(), placed)?;
    Ok(nodes)
}

/// What the points-to rules see of a program. Fails where memory or numbers are wanting.
pub fn view_of(alloc: Global, program: &Program) -> Result<View, Memory>
    ensures { IfOk result (λ view. view ≡ spec.view_of program.now) }
{
    let parts = parts_of_program(alloc, program)?;
    let tables = tables_of(alloc, program, &parts)?;
    let nodes = nodes_of(alloc, program, &parts, &tables)?;
    Ok(View {
        nodes,
        lists: tables.lists,
        parts,
        functions: tables.functions,
    })
}
