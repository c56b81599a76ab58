// What names in expressions name: it is defined, and a function of the environment is called.
ghost use Rattle.std.specs.Prelude.{◌≡◌, IfOk};
ghost use Rattle.cc_link_rules.specs.Uses as spec;

use crate::fault::{Fault, next, next_file, noted};
use crate::rule;
use crate::standing::{Standing, Standings, standing_at};
use cc_arena::{Arena, Node, Placed};
use cc_base::{FileId, Memory};
use cc_symbols::{CheckedUnit, Declared, Form, Slots, Symbols};
use std::alloc::Global;

/// Whether a declaration declares a function or an object.
pub fn is_function_or_object(declared: &Slots<Declared>, declaration: u32) -> bool
    ensures { result ≡ spec.is_function_or_object declared.now declaration }
{
    match declared.get(declaration) {
        Some(declared) => matches!(declared.form, Form::Function | Form::Object(_)),
        None => false,
    }
}

// Whether a node calls this part of it, where it is itself called or not.
fn calls(node: Node, part: u32, own: bool) -> bool
    ensures { result ≡ spec.calls node part own }
{
    match node {
        Node::Call(designator, _) => designator == part,
        Node::Paren(_) => own,
        _ => false,
    }
}

fn called_by(parent: Option<Node>, part: u32, own: bool) -> bool
    ensures { result ≡ spec.called_by parent part own }
{
    match parent {
        Some(node) => calls(node, part, own),
        None => false,
    }
}

fn flag_at(flags: &Slots<bool>, number: u32) -> bool
    ensures { result ≡ spec.flag_at flags.now number }
{
    match flags.get(number) {
        Some(flag) => flag,
        None => false,
    }
}

/// For each node whether it is, parentheses aside, the designator of a call.
pub fn all_called(alloc: Global, arena: &Arena) -> Result<Slots<bool>, Memory>
    ensures { IfOk result (λ flags. flags ≡ spec.all_called arena.now.nodes) }
{
    let mut flags = Slots::new(alloc);
    let mut number = 0;
    for placed in arena.nodes.as_slice() {
        let own = flag_at(&flags, placed.parent);
        flags.push(called_by(arena.node_at(placed.parent), number, own))?;
        number = next(number);
    }
    Ok(flags)
}

// K3 and K10 where a name names what stands so.
fn use_of(standing: Standing, is_called: bool) -> Option<u8>
    ensures { result ≡ spec.use_of standing is_called }
{
    if standing.definition.is_none() && !standing.is_environment {
        Some(rule::DEFINED_NAME)
    } else if standing.is_environment && !is_called {
        Some(rule::CALLED_ONLY)
    } else {
        None
    }
}

/// What the node of this number names.
pub fn named_at(symbols: &Symbols, node: u32) -> Option<u32>
    ensures { result ≡ spec.named_at symbols.now.names node }
{
    match symbols.names.get(node) {
        Some(named) => named,
        None => None,
    }
}

// K3 and K10 where a name names this declaration.
fn use_declared(
    symbols: &Symbols,
    standings: &Standings,
    declaration: u32,
    is_called: bool,
) -> Option<u8>
    ensures { result ≡ spec.use_declared symbols.now.declared standings.now declaration is_called }
{
    if is_function_or_object(&symbols.declared, declaration) {
        use_of(standing_at(standings, declaration), is_called)
    } else {
        None
    }
}

// K3 and K10 at a name.
fn use_named(symbols: &Symbols, standings: &Standings, number: u32, is_called: bool) -> Option<u8>
    ensures { result ≡ spec.use_named symbols.now.declared symbols.now.names standings.now number is_called }
{
    match named_at(symbols, number) {
        Some(declaration) => use_declared(symbols, standings, declaration, is_called),
        None => None,
    }
}

// K3 and K10 at a node.
fn use_at(
    symbols: &Symbols,
    standings: &Standings,
    number: u32,
    is_called: bool,
    node: Node,
) -> Option<u8>
    ensures { result ≡ spec.use_at symbols.now.declared symbols.now.names standings.now number is_called node }
{
    match node {
        Node::Name => use_named(symbols, standings, number, is_called),
        _ => None,
    }
}

// The first of these files that has a node; the first file of all where there is none.
fn file_with(units: &[CheckedUnit], node: u32) -> FileId
    ensures { result ≡ spec.file_with units.now node }
{
    let mut file = FileId(0);
    for unit in units {
        if unit.start <= node && node < unit.end {
            return file;
        }
        file = next_file(file);
    }
    FileId(0)
}

// The least fault, where a rule may be broken at a node.
fn noted_at(
    least: Option<Fault>,
    broken: Option<u8>,
    units: &[CheckedUnit],
    number: u32,
    placed: &Placed,
) -> Option<Fault>
    ensures { result ≡ spec.noted_at least broken units.now number placed.now }
{
    match broken {
        Some(rule) => noted(least, Some(rule), file_with(units, number), placed.spot),
        None => least,
    }
}

/// The least fault of K3 and K10, where `called` says which nodes are called.
pub fn use_all(
    symbols: &Symbols,
    standings: &Standings,
    called: &Slots<bool>,
    arena: &Arena,
    units: &[CheckedUnit],
) -> Option<Fault>
    ensures { result ≡ spec.use_all symbols.now.declared symbols.now.names standings.now called.now units.now arena.now.nodes }
{
    let mut least = None;
    let mut number = 0;
    for placed in arena.nodes.as_slice() {
        let is_called = flag_at(called, number);
        let broken = use_at(symbols, standings, number, is_called, placed.node);
        least = noted_at(least, broken, units, number, placed);
        number = next(number);
    }
    least
}
