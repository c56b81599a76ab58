// The tables of a program.
ghost use Rattle.std.specs.Prelude.{◌≡◌, OnOk, IfOk};
ghost use Rattle.cc_link.specs.Tables as spec;

use crate::numbers::{Numbers, declared_at};
use cc_arena::{Arena, Node};
use cc_base::{List, Memory, Text};
use cc_link_rules::{Links, Standings, next, standing_at, text_at};
use cc_program::{FileEntry, FuncId, Function, FunctionKind, Referent, VarId, Variable};
use cc_project::{ProjectFile, TextList};
use cc_symbols::{CHAR, CheckedUnit, Declared, Form, Life, Slots, Symbols};
use std::alloc::Global;

fn copied(alloc: Global, text: &str) -> Result<Text, Memory>
    ensures { IfOk result (λ copy. copy ≡ text.now) }
{
    Ok(Text::new(String::from_str(alloc, text)?))
}

// The block that a node hands to this part of it, where it was itself handed one: a definition its own to its declarator, and a
// form of a declarator what it has to the declarator inside.
fn block_under(node: Node, part: u32, own: Option<u32>) -> Option<u32>
    ensures { result ≡ spec.block_under node part own }
{
    match node {
        Node::Definition(Some(declarator), block) => {
            if declarator == part {
                Some(block)
            } else {
                None
            }
        }
        Node::Pointer(_) | Node::Array(_, _) | Node::Function(_, _) | Node::Group(_) => own,
        _ => None,
    }
}

fn block_by(parent: Option<Node>, part: u32, own: Option<u32>) -> Option<u32>
    ensures { result ≡ spec.block_by parent part own }
{
    match parent {
        Some(node) => block_under(node, part, own),
        None => None,
    }
}

/// By node, the block of a definition.
pub type Blocks = Slots<Option<u32>>;

fn block_at(blocks: &Blocks, number: u32) -> Option<u32>
    ensures { result ≡ spec.block_at blocks.now number }
{
    match blocks.get(number) {
        Some(block) => block,
        None => None,
    }
}

/// For each node of the declarator of a definition the definition's block.
pub fn all_blocks(alloc: Global, arena: &Arena) -> Result<Blocks, Memory>
    ensures { IfOk result (λ blocks. blocks ≡ spec.all_blocks arena.now.nodes) }
{
    let mut blocks = Slots::new(alloc);
    let mut number = 0;
    for placed in arena.nodes.as_slice() {
        let own = block_at(&blocks, placed.parent);
        blocks.push(block_by(arena.node_at(placed.parent), number, own))?;
        number = next(number);
    }
    Ok(blocks)
}

// Whether a declaration declares a formal.
fn is_formal(declared: &Slots<Declared>, declaration: u32) -> bool
    ensures { result ≡ spec.is_formal declared.now declaration }
{
    match declared.get(declaration) {
        Some(declared) => matches!(declared.form, Form::Object(Life::Formal)),
        None => false,
    }
}

// The formal that a node declares.
fn formal_at(numbers: &Numbers, symbols: &Symbols, number: u32, node: Node) -> Option<VarId> {
    match declared_at(symbols, number, node) {
        Some(declaration) if is_formal(&symbols.declared, declaration) => {
            match numbers.referent(declaration) {
                Some(Referent::Variable(formal)) => Some(formal),
                _ => None,
            }
        }
        _ => None,
    }
}

fn push_formal(formals: &mut List<VarId>, formal: Option<VarId>) -> Result<(), Memory> {
    match formal {
        Some(formal) => formals.push(formal),
        None => Ok(()),
    }
}

// The formals that are declared from one node to before another.
fn formals_between(
    alloc: Global,
    numbers: &Numbers,
    symbols: &Symbols,
    arena: &Arena,
    start: u32,
    end: u32,
) -> Result<List<VarId>, Memory> {
    let mut formals = List::new(alloc);
    for number in start..end {
        let formal = match arena.node_at(number) {
            Some(node) => formal_at(numbers, symbols, number, node),
            None => None,
        };
        push_formal(&mut formals, formal)?;
    }
    Ok(formals)
}

// The node of the name of a declaration, in its first declarator.
fn first_node(declared: &Slots<Declared>, declaration: u32) -> u32
    ensures { result ≡ spec.first_node declared.now declaration }
{
    match declared.get(declaration) {
        Some(declared) => declared.node,
        None => 0,
    }
}

// How long the variable of a declaration lives.
fn life_of(declared: &Slots<Declared>, declaration: u32) -> Life
    ensures { result ≡ spec.life_of declared.now declaration }
{
    match declared.get(declaration) {
        Some(declared) => match declared.form {
            Form::Object(life) => life,
            _ => Life::Static,
        },
        None => Life::Static,
    }
}

// The function of which this is the first declaration.
fn function_of(
    alloc: Global,
    numbers: &Numbers,
    symbols: &Symbols,
    standings: &Standings,
    arena: &Arena,
    blocks: &Blocks,
    first: u32,
) -> Result<Function, Memory> {
    let standing = standing_at(standings, first);
    let name = copied(alloc, text_at(&symbols.texts, first))?;
    let ty = standing.kind.unwrap_or(CHAR);
    match standing.definition {
        Some(declarator) => {
            let body = block_at(blocks, declarator);
            let end = body.unwrap_or(declarator);
            Ok(Function {
                name,
                declarator,
                formals: formals_between(alloc, numbers, symbols, arena, declarator, end)?,
                body,
                kind: FunctionKind::Defined,
                ty,
            })
        }
        None => Ok(Function {
            name,
            declarator: first_node(&symbols.declared, first),
            formals: List::new(alloc),
            body: None,
            kind: FunctionKind::Environment,
            ty,
        }),
    }
}

/// The functions, by number.
pub fn functions(
    alloc: Global,
    numbers: &Numbers,
    symbols: &Symbols,
    standings: &Standings,
    arena: &Arena,
) -> Result<List<Function>, Memory> {
    let blocks = all_blocks(alloc, arena)?;
    let mut functions = List::new(alloc);
    for first in numbers.functions.as_slice() {
        let function = function_of(alloc, numbers, symbols, standings, arena, &blocks, *first)?;
        functions.push(function)?;
    }
    Ok(functions)
}

// The variable of which this is the first declaration.
fn variable_of(
    alloc: Global,
    symbols: &Symbols,
    standings: &Standings,
    first: u32,
) -> Result<Variable, Memory>
    ensures { IfOk result (λ variable. variable ≡ spec.variable_of symbols.now standings.now first) }
{
    let standing = standing_at(standings, first);
    let name = copied(alloc, text_at(&symbols.texts, first))?;
    Ok(Variable {
        name,
        declarator: standing.definition.unwrap_or(0),
        ty: standing.kind.unwrap_or(CHAR),
        life: life_of(&symbols.declared, first),
    })
}

/// The variables, by number.
pub fn variables(
    alloc: Global,
    numbers: &Numbers,
    symbols: &Symbols,
    standings: &Standings,
) -> Result<List<Variable>, Memory>
    ensures { IfOk result (λ variables. variables ≡ spec.variables symbols.now standings.now numbers.now.variables) }
{
    let mut variables = List::new(alloc);
    for first in numbers.variables.as_slice() {
        let variable = variable_of(alloc, symbols, standings, *first)?;
        variables.push(variable)?;
    }
    Ok(variables)
}

// The function that an entry names.
fn entry_of(links: &Links, numbers: &Numbers, name: &str) -> Option<FuncId>
    ensures { result ≡ spec.entry_of links.now numbers.now name.now }
{
    match links.find(name) {
        Some(linked) => function_in(numbers.referent(linked.first)),
        None => None,
    }
}

// The function that stands there, if it is one.
fn function_in(referent: Option<Referent>) -> Option<FuncId>
    ensures { result ≡ spec.function_in referent }
{
    match referent {
        Some(Referent::Function(function)) => Some(function),
        _ => None,
    }
}

fn push_entry(entries: &mut List<FuncId>, entry: Option<FuncId>) -> Result<(), Memory>
    ensures { OnOk result (entries.new ≡ spec.with_entry entries.old entry) }
{
    match entry {
        Some(entry) => entries.push(entry),
        None => Ok(()),
    }
}

/// The entries, in the order of the project file.
pub fn entries(
    alloc: Global,
    links: &Links,
    numbers: &Numbers,
    names: &TextList,
) -> Result<List<FuncId>, Memory>
    ensures { IfOk result (λ entries. entries ≡ spec.entries links.now numbers.now names.now) }
{
    let mut entries = List::new(alloc);
    for name in names.as_slice() {
        push_entry(&mut entries, entry_of(links, numbers, name.as_str()))?;
    }
    Ok(entries)
}

// The first node of the unit of this number, and the number after its last.
fn bounds_of(units: &[CheckedUnit], number: u32) -> (u32, u32)
    ensures { result ≡ spec.bounds_of units.now number }
{
    match units.get(number as usize) {
        Some(unit) => (unit.start, unit.end),
        None => (0, 0),
    }
}

// A file, with the nodes of its unit.
fn file_entry(alloc: Global, file: &ProjectFile, bounds: (u32, u32)) -> Result<FileEntry, Memory>
    ensures { IfOk result (λ entry. entry ≡ spec.file_entry file.now bounds) }
{
    let name = copied(alloc, file.name.as_str())?;
    Ok(FileEntry {
        name,
        component: file.component,
        start: bounds.0,
        end: bounds.1,
    })
}

/// The files, by number.
pub fn files(
    alloc: Global,
    files: &List<ProjectFile>,
    units: &[CheckedUnit],
) -> Result<List<FileEntry>, Memory>
    ensures { IfOk result (λ entries. entries ≡ spec.files units.now files.now) }
{
    let mut entries = List::new(alloc);
    let mut number = 0;
    for file in files.as_slice() {
        let entry = file_entry(alloc, file, bounds_of(units, number))?;
        entries.push(entry)?;
        number = next(number);
    }
    Ok(entries)
}

/// A copy of these texts.
pub fn copied_texts(alloc: Global, texts: &TextList) -> Result<List<Text>, Memory>
    ensures { IfOk result (λ copy. copy ≡ texts.now) }
{
    let mut copy = List::new(alloc);
    for text in texts.as_slice() {
        let text = copied(alloc, text.as_str())?;
        copy.push(text)?;
    }
    Ok(copy)
}
