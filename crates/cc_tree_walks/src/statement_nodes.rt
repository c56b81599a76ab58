// How many nodes statements have, and what stands around and below them.
ghost use Rattle.std.specs.Prelude.{◌≡◌, ◌-◌, ◌^◌, min, map, option_map};
ghost use Rattle.cc_tree.specs.Views.{view, view_value, values_of, view_init, view_declaration, view_start, view_stmt, view_block, view_item, items_of, view_external, view_file};
ghost use Rattle.cc_tree.specs.Nodes as spec;

use crate::nodes::{declarator_nodes, expr_nodes, specs_nodes};
use cc_tree::{Block, Declaration, Expr, External, FileTree, ForStart, Init, Item, Stmt, Value};

/// How many nodes the initialiser has; where there are 2^64 or more, 2^64 - 1.
#[cycle(values)]
pub fn value_nodes<N>(v: &Value<N>) -> u64
    ensures { result ≡ min (spec.value_nodes (view_value v.now)) (2 ^ 64 - 1) }
{
    match v {
        Value::Expr(e) => expr_nodes(e),
        Value::List(_, vs, _) => values_nodes(vs.as_slice()).saturating_add(1),
    }
}

#[cycle(values)]
fn values_nodes<N>(vs: &[Value<N>]) -> u64
    ensures { result ≡ min (spec.values_nodes (values_of vs.now)) (2 ^ 64 - 1) }
{
    let mut nodes: u64 = 0;
    for v in vs {
        nodes = nodes.saturating_add(value_nodes(v));
    }
    nodes
}

fn given_nodes<N>(v: &Option<Value<N>>) -> u64
    ensures { result ≡ min (spec.given_nodes (option_map view_value v.now)) (2 ^ 64 - 1) }
{
    match v {
        None => 0,
        Some(v) => value_nodes(v),
    }
}

fn init_nodes<N>(i: &Init<N>) -> u64
    ensures { result ≡ min (spec.init_nodes (view_init i.now)) (2 ^ 64 - 1) }
{
    declarator_nodes(&i.declarator).saturating_add(given_nodes(&i.value))
}

fn inits_nodes<N>(is: &[Init<N>]) -> u64
    ensures { result ≡ min (spec.inits_nodes (map view_init is.now)) (2 ^ 64 - 1) }
{
    let mut nodes: u64 = 0;
    for i in is {
        nodes = nodes.saturating_add(init_nodes(i));
    }
    nodes
}

/// How many nodes the declaration has, itself included; where there are 2^64 or more, 2^64 - 1.
pub fn declaration_nodes<N>(d: &Declaration<N>) -> u64
    ensures { result ≡ min (spec.declaration_nodes (view_declaration d.now)) (2 ^ 64 - 1) }
{
    specs_nodes(d.specs.as_slice())
        .saturating_add(inits_nodes(d.inits.as_slice()))
        .saturating_add(1)
}

fn start_nodes<N>(s: &ForStart<N>) -> u64
    ensures { result ≡ min (spec.start_nodes (view_start s.now)) (2 ^ 64 - 1) }
{
    match s {
        ForStart::Decl(d) => declaration_nodes(d),
        ForStart::Expr(e) => expr_nodes(e),
        ForStart::Empty => 0,
    }
}

fn clause_nodes<N>(e: &Option<Expr<N>>) -> u64
    ensures { result ≡ min (spec.clause_nodes (option_map view e.now)) (2 ^ 64 - 1) }
{
    match e {
        None => 0,
        Some(e) => expr_nodes(e),
    }
}

/// How many nodes the statement has, itself included; where there are 2^64 or more, 2^64 - 1.
#[cycle(statements)]
pub fn stmt_nodes<N>(s: &Stmt<N>) -> u64
    ensures { result ≡ min (spec.stmt_nodes (view_stmt s.now)) (2 ^ 64 - 1) }
{
    match s {
        Stmt::Block(b) => block_nodes(b),
        Stmt::Plain(_, e) => expr_nodes(e).saturating_add(1),
        Stmt::Empty(_) | Stmt::Break(_) | Stmt::Continue(_) => 1,
        Stmt::If(_, c, s) => expr_nodes(c)
            .saturating_add(stmt_nodes(s.get()))
            .saturating_add(1),
        Stmt::IfElse(_, c, s, o) => {
            expr_nodes(c)
                .saturating_add(stmt_nodes(s.get()))
                .saturating_add(stmt_nodes(o.get()))
                .saturating_add(1)
        }
        Stmt::Switch(_, e, b) => expr_nodes(e)
            .saturating_add(block_nodes(b))
            .saturating_add(1),
        Stmt::While(_, c, s) => expr_nodes(c)
            .saturating_add(stmt_nodes(s.get()))
            .saturating_add(1),
        Stmt::Do(_, s, c) => stmt_nodes(s.get())
            .saturating_add(expr_nodes(c))
            .saturating_add(1),
        Stmt::For(_, start, test, each, s) => {
            let clauses = start_nodes(start)
                .saturating_add(clause_nodes(test))
                .saturating_add(clause_nodes(each));
            clauses
                .saturating_add(stmt_nodes(s.get()))
                .saturating_add(1)
        }
        Stmt::Return(_, e) => clause_nodes(e).saturating_add(1),
    }
}

/// How many nodes the block has, itself included; where there are 2^64 or more, 2^64 - 1.
#[cycle(statements)]
pub fn block_nodes<N>(b: &Block<N>) -> u64
    ensures { result ≡ min (spec.block_nodes (view_block b.now)) (2 ^ 64 - 1) }
{
    items_nodes(b.items.as_slice()).saturating_add(1)
}

/// How many nodes the declaration, statement or label in a block has; where there are 2^64 or more, 2^64 - 1.
#[cycle(statements)]
pub fn item_nodes<N>(i: &Item<N>) -> u64
    ensures { result ≡ min (spec.item_nodes (view_item i.now)) (2 ^ 64 - 1) }
{
    match i {
        Item::Decl(d) => declaration_nodes(d),
        Item::Case(_, e) => expr_nodes(e).saturating_add(1),
        Item::Default(_) => 1,
        Item::Stmt(s) => stmt_nodes(s),
    }
}

#[cycle(statements)]
fn items_nodes<N>(is: &[Item<N>]) -> u64
    ensures { result ≡ min (spec.items_nodes (items_of is.now)) (2 ^ 64 - 1) }
{
    let mut nodes: u64 = 0;
    for i in is {
        nodes = nodes.saturating_add(item_nodes(i));
    }
    nodes
}

/// How many nodes the declaration or function in a file has, itself included; where there are 2^64 or more, 2^64 - 1.
pub fn external_nodes<N>(x: &External<N>) -> u64
    ensures { result ≡ min (spec.external_nodes (view_external x.now)) (2 ^ 64 - 1) }
{
    match x {
        External::Declaration(d) => declaration_nodes(d),
        External::Function(f) => {
            let head = specs_nodes(f.specs.as_slice()).saturating_add(declarator_nodes(
                &f.declarator,
            ));
            head.saturating_add(block_nodes(&f.body)).saturating_add(1)
        }
    }
}

/// How many nodes the file has, which is none itself; where there are 2^64 or more, 2^64 - 1.
pub fn file_nodes<N>(f: &FileTree<N>) -> u64
    ensures { result ≡ min (spec.file_nodes (view_file f.now)) (2 ^ 64 - 1) }
{
    externals_nodes(f.externals.as_slice())
}

fn externals_nodes<N>(xs: &[External<N>]) -> u64
    ensures { result ≡ min (spec.file_nodes (map view_external xs.now)) (2 ^ 64 - 1) }
{
    let mut nodes: u64 = 0;
    for x in xs {
        nodes = nodes.saturating_add(external_nodes(x));
    }
    nodes
}
