// The numbers are counted by hand, from 4 on: a node comes before its parts, and its parts from left to right.
use crate::trees::{file, size_expr};
use cc_base::{Memory, Spot};
use cc_tree::{
    Block, Declaration, Declarator, Expr, External, FileTree, Function, Init, Item, Member, Spec,
    Stmt, TypeName, Unit, Value,
};
use cc_tree_notes::{Counted, number_expr, number_file};
use cc_tree_walks::{
    block_note, constant_note, declaration_note, declarator_note, expr_nodes, expr_note,
    external_note, file_nodes, item_note, member_note, spec_note, stmt_note, type_note, value_note,
};
use sqlite_items::Boxed;
use std::alloc::Global;
use std::test::Fail;

// Whether this is the note of node `number`, at this place.
fn is(note: &Counted, line: u32, column: u32, number: u32) -> bool {
    *note
        == Counted {
            spot: Spot { line, column },
            number,
        }
}

fn declarator_is(d: &Declarator<Counted>, line: u32, column: u32, number: u32) -> bool {
    match declarator_note(d) {
        Some(note) => is(note, line, column, number),
        None => false,
    }
}

// `enum { A }`: 5, 6.
fn has_enumeration(specs: &[Spec<Counted>]) -> bool {
    match specs {
        [spec] => match spec {
            Spec::Enum(_, None, constants, false) => match constants.as_slice() {
                [constant] => {
                    is(spec_note(spec), 1, 1, 5)
                        && is(constant_note(constant), 1, 8, 6)
                        && constant.name.as_str() == "A"
                }
                _ => false,
            },
            _ => false,
        },
        _ => false,
    }
}

// `{ 7, }`: 8, 9.
fn has_braces(braces: &Value<Counted>) -> bool {
    match braces {
        Value::List(_, values, true) => match values.as_slice() {
            [value] => is(value_note(braces), 1, 16, 8) && is(value_note(value), 1, 18, 9),
            _ => false,
        },
        _ => false,
    }
}

// `enum { A } x = { 7, };`: 4 to 9.
fn has_declaration(d: &Declaration<Counted>) -> bool {
    match d.inits.as_slice() {
        [
            Init {
                declarator,
                value: Some(value),
            },
        ] => {
            is(declaration_note(d), 1, 1, 4)
                && has_enumeration(d.specs.as_slice())
                && declarator_is(declarator, 1, 12, 7)
                && has_braces(value)
        }
        _ => false,
    }
}

// `int *m;`: 12 to 15.
fn has_member(member: &Member<Counted>) -> bool {
    match (member.specs.as_slice(), member.declarators.as_slice()) {
        ([int], [pointer]) => {
            is(member_note(member), 2, 10, 12)
                && is(spec_note(int), 2, 10, 13)
                && declarator_is(pointer, 2, 15, 14)
                && has_name(pointer, 2, 15, 15)
        }
        _ => false,
    }
}

// The name in `*m` or `f()`.
fn has_name(d: &Declarator<Counted>, line: u32, column: u32, number: u32) -> bool {
    match d {
        Declarator::Pointer(_, _, name) => declarator_is(name.get(), line, column, number),
        Declarator::Func(_, name, _) => declarator_is(name.get(), line, column, number),
        _ => false,
    }
}

// `struct { int *m; } f()`: 11 to 17.
fn has_head(f: &Function<Counted>) -> bool {
    match f.specs.as_slice() {
        [Spec::Struct(note, None, members)] => match members.as_slice() {
            [member] => {
                is(note, 2, 1, 11)
                    && has_member(member)
                    && declarator_is(&f.declarator, 2, 20, 16)
                    && has_name(&f.declarator, 2, 20, 17)
            }
            _ => false,
        },
        _ => false,
    }
}

// `int`, as a type name: 24, 25.
fn has_type(t: &TypeName<Counted>) -> bool {
    match t.specs.as_slice() {
        [int] => is(type_note(t), 2, 52, 24) && is(spec_note(int), 2, 52, 25),
        _ => false,
    }
}

// `case sizeof (int):`: 22 to 25.
fn has_label(label: &Item<Counted>) -> bool {
    match label {
        Item::Case(_, size) => match size {
            Expr::SizeType(_, t) => {
                is(item_note(label), 2, 39, 22)
                    && is(expr_note(size), 2, 44, 23)
                    && has_type(t.get())
            }
            _ => false,
        },
        _ => false,
    }
}

// `{ case sizeof (int): ; }`: 21 to 26.
fn has_inner(inner: &Block<Counted>) -> bool {
    match inner.items.as_slice() {
        [label, empty] => {
            is(block_note(inner), 2, 37, 21) && has_label(label) && is(item_note(empty), 2, 58, 26)
        }
        _ => false,
    }
}

// `{ switch (7) { case sizeof (int): ; } }`: 18 to 26.
fn has_body(body: &Block<Counted>) -> bool {
    match body.items.as_slice() {
        [Item::Stmt(switch)] => match switch {
            Stmt::Switch(_, seven, inner) => {
                is(block_note(body), 2, 24, 18)
                    && is(stmt_note(switch), 2, 26, 19)
                    && is(expr_note(seven), 2, 34, 20)
                    && has_inner(inner)
            }
            _ => false,
        },
        _ => false,
    }
}

fn has_file(file: &FileTree<Counted>) -> bool {
    match file.externals.as_slice() {
        [External::Declaration(d), External::Function(f)] => {
            has_declaration(d) && is(&f.note, 2, 20, 10) && has_head(f) && has_body(&f.body)
        }
        _ => false,
    }
}

fn begins_with(file: &FileTree<Counted>, number: u32) -> bool {
    match file.externals.as_slice() {
        [first, _] => is(external_note(first), 1, 1, number),
        _ => false,
    }
}

// Whether the file has the numbers 4 to 26, and once more those from 27 on.
fn is_numbered(alloc: Global, file: &Unit) -> Result<bool, Memory> {
    if file_nodes(file) > 100 {
        return Ok(false);
    }
    let mut next = 4;
    let first = Boxed::new(alloc, number_file(alloc, file, &mut next)?)?;
    let between = next;
    let second = Boxed::new(alloc, number_file(alloc, file, &mut next)?)?;
    let ends = between == 27 && next == 50;
    Ok(ends && has_file(first.get()) && begins_with(second.get(), 27))
}

#[test]
fn files(rt: HostRuntime) -> Result<(), Fail> {
    let file = file(rt.alloc())?;
    assert!(rt; is_numbered(rt.alloc(), file.get())?);
    Ok(())
}

// `sizeof (int)` by itself: 0, and the number after its last node is 3.
fn is_numbered_alone(alloc: Global, size: &Expr<Spot>) -> Result<bool, Memory> {
    if expr_nodes(size) > 100 {
        return Ok(false);
    }
    let mut next = 0;
    let numbered = Boxed::new(alloc, number_expr(alloc, size, &mut next)?)?;
    Ok(next == 3 && is(expr_note(numbered.get()), 2, 44, 0))
}

fn is_size_numbered(alloc: Global, file: &Unit) -> Result<bool, Memory> {
    match file.externals.as_slice() {
        [_, External::Function(f)] => match size_expr(f) {
            Some(size) => is_numbered_alone(alloc, size),
            None => Ok(false),
        },
        _ => Ok(false),
    }
}

#[test]
fn expressions(rt: HostRuntime) -> Result<(), Fail> {
    let file = file(rt.alloc())?;
    assert!(rt; is_size_numbered(rt.alloc(), file.get())?);
    Ok(())
}
