// The nodes are counted by hand.
use crate::trees::{file, inner_of, pointer_of, size_expr};
use cc_base::Spot;
use cc_tree::{Declaration, Expr, External, Function, Init, Item, Unit};
use cc_tree_walks::{
    block_nodes, declaration_nodes, declarator_nodes, expr_nodes, external_nodes, file_nodes,
    item_nodes, specs_nodes, stmt_nodes, type_nodes, value_nodes,
};
use std::test::Fail;

// Of `enum { A } x = { 7, };`.
fn declaration_counts(d: &Declaration<Spot>) -> bool {
    match d.inits.as_slice() {
        [
            Init {
                value: Some(braces),
                ..
            },
        ] => { declaration_nodes(d) == 6 && value_nodes(braces) == 2 }
        _ => false,
    }
}

// Of `sizeof (int)`.
fn size_counts(size: &Expr<Spot>) -> bool {
    match size {
        Expr::SizeType(_, name) => expr_nodes(size) == 3 && type_nodes(name.get()) == 2,
        _ => false,
    }
}

// Of `struct { int *m; } f()`.
fn head_counts(f: &Function<Spot>) -> bool {
    specs_nodes(f.specs.as_slice()) == 5
        && declarator_nodes(&f.declarator) == 2
        && pointer_of(f).is_some_and(|d| declarator_nodes(d) == 2)
}

// Of `{ switch (7) { case sizeof (int): ; } }`.
fn body_counts(f: &Function<Spot>) -> bool {
    match f.body.items.as_slice() {
        [Item::Stmt(switch)] => {
            block_nodes(&f.body) == 9
                && stmt_nodes(switch) == 8
                && size_expr(f).is_some_and(size_counts)
        }
        _ => false,
    }
}

// Of `case sizeof (int):`.
fn label_counts(f: &Function<Spot>) -> bool {
    match inner_of(f) {
        Some(inner) => match inner.items.as_slice() {
            [label, _] => block_nodes(inner) == 6 && item_nodes(label) == 4,
            _ => false,
        },
        None => false,
    }
}

fn file_counts(file: &Unit) -> bool {
    match file.externals.as_slice() {
        [first, second] => {
            file_nodes(file) == 23 && external_nodes(first) == 6 && external_nodes(second) == 17
        }
        _ => false,
    }
}

fn parts_count(file: &Unit) -> bool {
    match file.externals.as_slice() {
        [External::Declaration(d), External::Function(f)] => {
            declaration_counts(d) && head_counts(f) && body_counts(f) && label_counts(f)
        }
        _ => false,
    }
}

#[test]
fn counts(rt: HostRuntime) -> Result<(), Fail> {
    let file = file(rt.alloc())?;
    assert!(rt; file_counts(file.get()));
    assert!(rt; parts_count(file.get()));
    Ok(())
}
