// The file of the tests, built by hand with ample memory, and its parts.
//
//     enum { A } x = { 7, };
//     struct { int *m; } f() { switch (7) { case sizeof (int): ; } }
use cc_arith::IntKind;
use cc_base::{Memory, Spot, Text};
use cc_tree::{
    Block, Constant, Declaration, Declarator, Expr, External, FileTree, Function, Init, Item,
    Member, Spec, SpecWord, Stmt, TypeName, Unit, Value,
};
use sqlite_items::{Boxed, Items};
use std::alloc::Global;

fn at(line: u32, column: u32) -> Spot {
    Spot { line, column }
}

fn text(alloc: Global, spelling: &str) -> Result<Text, Memory> {
    Ok(Text::new(String::from_str(alloc, spelling)?))
}

fn boxed<T: Drop>(alloc: Global, value: T) -> Result<Boxed<T>, Memory> {
    Ok(Boxed::new(alloc, value)?)
}

fn one<T: Drop>(alloc: Global, item: T) -> Result<Items<T>, Memory> {
    let mut items = Items::new(alloc);
    items.push(item)?;
    Ok(items)
}

fn two<T: Drop>(alloc: Global, first: Boxed<T>, second: Boxed<T>) -> Result<Items<T>, Memory> {
    let mut items = Items::new(alloc);
    items.push(first.into_inner())?;
    items.push(second.into_inner())?;
    Ok(items)
}

fn seven(spot: Spot) -> Expr<Spot> {
    Expr::Int(spot, 7, IntKind::Int)
}

fn int(alloc: Global, spot: Spot) -> Result<Items<Spec<Spot>>, Memory> {
    one(alloc, Spec::Word(spot, SpecWord::Int))
}

// `enum { A }`
fn enumeration(alloc: Global) -> Result<Items<Spec<Spot>>, Memory> {
    let constant = Constant {
        note: at(1, 8),
        name: text(alloc, "A")?,
        value: None,
    };
    let constants = one(alloc, constant)?;
    one(alloc, Spec::Enum(at(1, 1), None, constants, false))
}

// `x = { 7, }`
fn initialised(alloc: Global) -> Result<Items<Init<Spot>>, Memory> {
    let name = text(alloc, "x")?;
    let values = one(alloc, Value::Expr(seven(at(1, 18))))?;
    let init = Init {
        declarator: Declarator::Name(at(1, 12), name),
        value: Some(Value::List(at(1, 16), values, true)),
    };
    one(alloc, init)
}

fn declaration(alloc: Global) -> Result<Boxed<External<Spot>>, Memory> {
    let specs = enumeration(alloc)?;
    let inits = initialised(alloc)?;
    let declaration = Declaration {
        note: at(1, 1),
        specs,
        inits,
    };
    boxed(alloc, External::Declaration(declaration))
}

// `*m`
fn pointer(alloc: Global) -> Result<Items<Declarator<Spot>>, Memory> {
    let name = boxed(alloc, Declarator::Name(at(2, 15), text(alloc, "m")?))?;
    one(alloc, Declarator::Pointer(at(2, 15), 0, name))
}

// `struct { int *m; }`
fn structure(alloc: Global) -> Result<Items<Spec<Spot>>, Memory> {
    let specs = int(alloc, at(2, 10))?;
    let declarators = pointer(alloc)?;
    let member = Member {
        note: at(2, 10),
        specs,
        declarators,
    };
    let members = one(alloc, member)?;
    one(alloc, Spec::Struct(at(2, 1), None, members))
}

// `f()`
fn function_declarator(alloc: Global) -> Result<Boxed<Declarator<Spot>>, Memory> {
    let name = boxed(alloc, Declarator::Name(at(2, 20), text(alloc, "f")?))?;
    boxed(alloc, Declarator::Func(at(2, 20), name, Items::new(alloc)))
}

// `case sizeof (int):`
fn label(alloc: Global) -> Result<Boxed<Item<Spot>>, Memory> {
    let type_name = TypeName {
        note: at(2, 52),
        specs: int(alloc, at(2, 52))?,
        declarator: Declarator::Nameless,
    };
    let size = Expr::SizeType(at(2, 44), boxed(alloc, type_name)?);
    boxed(alloc, Item::Case(at(2, 39), size))
}

// `{ switch (7) { case sizeof (int): ; } }`
fn body(alloc: Global) -> Result<Items<Item<Spot>>, Memory> {
    let first = label(alloc)?;
    let second = boxed(alloc, Item::Stmt(Stmt::Empty(at(2, 58))))?;
    let inner = Block {
        note: at(2, 37),
        items: two(alloc, first, second)?,
    };
    one(
        alloc,
        Item::Stmt(Stmt::Switch(at(2, 26), seven(at(2, 34)), inner)),
    )
}

fn function(alloc: Global) -> Result<Boxed<External<Spot>>, Memory> {
    let specs = structure(alloc)?;
    let declarator = function_declarator(alloc)?;
    let items = body(alloc)?;
    let function = Function {
        note: at(2, 20),
        specs,
        declarator: declarator.into_inner(),
        body: Block {
            note: at(2, 24),
            items,
        },
    };
    boxed(alloc, External::Function(function))
}

/// The whole file.
pub(crate) fn file(alloc: Global) -> Result<Boxed<Unit>, Memory> {
    let first = declaration(alloc)?;
    let second = function(alloc)?;
    boxed(
        alloc,
        FileTree {
            externals: two(alloc, first, second)?,
        },
    )
}

/// `*m`
pub(crate) fn pointer_of<N>(f: &Function<N>) -> Option<&Declarator<N>> {
    match f.specs.as_slice() {
        [Spec::Struct(_, _, members)] => match members.as_slice() {
            [member] => member.declarators.as_slice().first(),
            _ => None,
        },
        _ => None,
    }
}

/// `{ case sizeof (int): ; }`
pub(crate) fn inner_of<N>(f: &Function<N>) -> Option<&Block<N>> {
    match f.body.items.as_slice() {
        [Item::Stmt(Stmt::Switch(_, _, inner))] => Some(inner),
        _ => None,
    }
}

// The value of a `case`.
fn value_of<N>(label: &Item<N>) -> Option<&Expr<N>> {
    match label {
        Item::Case(_, value) => Some(value),
        _ => None,
    }
}

/// `sizeof (int)`
pub(crate) fn size_expr<N>(f: &Function<N>) -> Option<&Expr<N>> {
    match inner_of(f) {
        Some(inner) => match inner.items.as_slice().first() {
            Some(label) => value_of(label),
            None => None,
        },
        None => None,
    }
}
