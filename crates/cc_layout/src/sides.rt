// What acts say in lists beside them.
use crate::constants::{Constants, integer};
use crate::counts::small;
use crate::fillers::{Filling, Source};
use crate::numbers::{Numbers, declared_type, is_local};
use crate::types::{cells_of, conversion_to, kind_at, result_of};
use cc_acts::{Case, Conversion, Filler, Lasting};
use cc_arena::Node;
use cc_arith::{IntKind, convert, promote};
use cc_base::Memory;
use cc_graph::Graph;
use cc_program::{Function, Program};
use cc_store::Row;
use cc_symbols::Slots;
use cc_types::{Shape, TypeId};
use std::alloc::Global;

/// The fillers of an object, and how many operands they take.
#[derive(Clone, Copy)]
pub struct Fill {
    pub from: u32,
    pub fillers: u32,
    pub count: u32,
}

/// The cases of a switch, and the point where none fits.
#[derive(Clone, Copy)]
pub struct Select {
    pub from: u32,
    pub count: u32,
    pub other: u32,
}

/// The formals of a function, among those of all.
#[derive(Clone, Copy)]
pub struct Formals {
    pub from: u32,
    pub count: u32,
}

/// The lists beside the acts, and by node where each act's part of them is.
#[derive(Drop)]
pub struct Sides {
    /// By declarator of an automatic array or struct with an initialiser.
    pub fills: Slots<Option<Fill>>,
    /// By switch.
    pub selects: Slots<Option<Select>>,
    /// By function, its formals.
    pub entries: Slots<Formals>,
    /// By node of a function with its body, the function.
    pub owners: Slots<Option<u32>>,
    /// The declarators of the formals of all functions.
    pub formals: Row<u32>,
    /// The labels of all switches.
    pub cases: Row<Case>,
    /// What the cells get of all objects with fillers.
    pub fillers: Row<Filler>,
    /// The static objects and the string literals, in the order of their nodes.
    pub lasting: Row<Lasting>,
}

impl Sides {
    /// How a returned value becomes the result of the function in which a `return` stands.
    pub fn result_at(&self, program: &Program, n: u32) -> Conversion {
        let mut inner = n;
        for _ in 0..program.occurrences() {
            let up = program.parent_of(inner).unwrap_or(inner);
            if let Some(Some(f)) = self.owners.get(up) {
                return result_conversion(program, f);
            }
            if up >= inner {
                return Conversion::Void;
            }
            inner = up;
        }
        Conversion::Void
    }
}

fn result_conversion(program: &Program, f: u32) -> Conversion {
    match program.functions.as_slice().get(f as usize) {
        Some(function) => {
            let shape = program.types().shape(function.ty);
            let count = function.formals.as_slice().len();
            conversion_to(result_of(program, shape, count).unwrap_or(Shape::Void(false)))
        }
        None => Conversion::Void,
    }
}

// Adds the declarators of a function's formals.
fn add_formals(
    program: &Program,
    sides: &mut Sides,
    f: u32,
    function: &Function,
) -> Result<(), Memory> {
    let from = small(sides.formals.len())?;
    for formal in function.formals.as_slice() {
        let declarator = match program.variable(*formal) {
            Some(variable) => variable.declarator,
            None => 0,
        };
        sides.formals.push(declarator)?;
    }
    let count = small(sides.formals.len())?.saturating_sub(from);
    sides.entries.put(f, Formals { from, count });
    if let Some(body) = function.body {
        let definition = program.parent_of(body).unwrap_or(body);
        sides.owners.put(definition, Some(f));
    }
    Ok(())
}

// Adds the labels among these items of a block, whose switch has a value of this kind; the point of `default`, or else
// `other`.
fn add_labels(
    cases: &mut Row<Case>,
    program: &Program,
    graph: &Graph,
    constants: &Constants,
    kind: IntKind,
    items: &[u32],
    other: u32,
) -> Result<u32, Memory> {
    let mut other = other;
    for item in items {
        let point = graph.before(*item).unwrap_or(0);
        match program.node(*item) {
            Some(Node::Default) => other = point,
            Some(Node::Case(e)) => {
                if let Some(z) = integer(constants, e) {
                    let value = convert(kind, z);
                    cases.push(Case { value, point })?;
                }
            }
            _ => {}
        }
    }
    Ok(other)
}

// Adds the labels of a switch.
fn add_switch(
    sides: &mut Sides,
    program: &Program,
    graph: &Graph,
    constants: &Constants,
    n: u32,
    e: u32,
    block: u32,
) -> Result<(), Memory> {
    let from = small(sides.cases.len())?;
    let after = graph.after(n).unwrap_or(0);
    let kind = promote(kind_at(program, e));
    let items = match program.node(block) {
        Some(Node::Block(items)) => program.arena().part_list(items),
        _ => &[],
    };
    let cases = &mut sides.cases;
    let other = add_labels(cases, program, graph, constants, kind, items, after)?;
    let count = small(sides.cases.len())?.saturating_sub(from);
    sides.selects.put(n, Some(Select { from, count, other }));
    Ok(())
}

fn is_aggregate(shape: Shape) -> bool {
    match shape {
        Shape::Array(_, _, _) | Shape::Struct(_, _) => true,
        _ => false,
    }
}

// Adds the fillers of an object of a block with this initialiser, if it is an array or a struct.
fn add_fill(
    filling: &mut Filling,
    fills: &mut Slots<Option<Fill>>,
    n: u32,
    t: TypeId,
    value: u32,
) -> Result<(), Memory> {
    if !is_aggregate(filling.program.types().shape(t)) {
        return Ok(());
    }
    let from = filling.count()?;
    let count = filling.fill(Source::Operands, t, Some(value))?;
    let fillers = filling.count()?.saturating_sub(from);
    let fill = Fill {
        from,
        fillers,
        count,
    };
    fills.put(n, Some(fill));
    Ok(())
}

// Adds a static object. No rule lets one that is const be written, so it need not be read only.
fn add_object(
    filling: &mut Filling,
    lasting: &mut Row<Lasting>,
    n: u32,
    t: TypeId,
    value: Option<u32>,
) -> Result<(), Memory> {
    let from = filling.count()?;
    filling.fill(Source::Constants, t, value)?;
    let fillers = filling.count()?.saturating_sub(from);
    let cells = cells_of(filling.program, filling.program.types().shape(t));
    lasting.push(Lasting {
        declarator: n,
        cells,
        from,
        fillers,
        is_fixed: false,
    })
}

// Adds a string literal.
fn add_string(
    filling: &mut Filling,
    lasting: &mut Row<Lasting>,
    n: u32,
    bytes: &[u8],
) -> Result<(), Memory> {
    let from = filling.count()?;
    filling.fill_string(bytes)?;
    let fillers = filling.count()?.saturating_sub(from);
    lasting.push(Lasting {
        declarator: n,
        cells: small(bytes.len())?.saturating_add(1),
        from,
        fillers,
        is_fixed: true,
    })
}

// Adds what a declarator with this initialiser, or with none, adds to the lasting objects or to the fillers of automatic
// ones.
fn add_declared(
    filling: &mut Filling,
    sides: &mut Sides,
    n: u32,
    value: Option<u32>,
    is_lasting: bool,
) -> Result<(), Memory> {
    match (declared_type(filling.program, n), value) {
        (Some(t), value) if is_lasting => add_object(filling, &mut sides.lasting, n, t, value),
        (Some(t), Some(value)) if is_local(filling.program, n) => {
            add_fill(filling, &mut sides.fills, n, t, value)
        }
        _ => Ok(()),
    }
}

// Adds what a node adds to the lasting objects, or to the fillers of automatic ones.
fn add_node(
    filling: &mut Filling,
    numbers: &Numbers,
    sides: &mut Sides,
    n: u32,
) -> Result<(), Memory> {
    let program = filling.program;
    let is_lasting = numbers.lasting.get(n).unwrap_or(None).is_some();
    match program.node(n) {
        Some(Node::Str(bytes)) if is_lasting => {
            add_string(
                filling,
                &mut sides.lasting,
                n,
                program.arena().byte_list(bytes),
            )
        }
        Some(Node::Declared(value)) => add_declared(filling, sides, n, value, is_lasting),
        _ => Ok(()),
    }
}

fn empty(alloc: Global, program: &Program) -> Result<Sides, Memory> {
    let count = program.occurrences();
    let mut sides = Sides {
        fills: Slots::new(alloc),
        selects: Slots::new(alloc),
        entries: Slots::new(alloc),
        owners: Slots::new(alloc),
        formals: Row::new(alloc),
        cases: Row::new(alloc),
        fillers: Row::new(alloc),
        lasting: Row::new(alloc),
    };
    sides.fills.grow(count, None)?;
    sides.selects.grow(count, None)?;
    sides.owners.grow(count, None)?;
    let none = Formals { from: 0, count: 0 };
    sides.entries.grow(program.functions(), none)?;
    Ok(sides)
}

// Adds the formals of all functions.
fn add_all_formals(program: &Program, sides: &mut Sides) -> Result<(), Memory> {
    for (f, function) in program.functions.as_slice().iter().enumerate() {
        add_formals(program, sides, small(f)?, function)?;
    }
    Ok(())
}

/// The lists beside the acts of a program.
pub fn sides_of(
    alloc: Global,
    program: &Program,
    graph: &Graph,
    numbers: &Numbers,
    constants: &Constants,
) -> Result<Sides, Memory> {
    let mut sides = empty(alloc, program)?;
    add_all_formals(program, &mut sides)?;
    let mut filling = Filling::new(alloc, program, constants);
    for n in 0..program.occurrences() {
        if let Some(Node::Switch(e, block)) = program.node(n) {
            add_switch(&mut sides, program, graph, constants, n, e, block)?;
        }
        add_node(&mut filling, numbers, &mut sides, n)?;
    }
    sides.fillers = filling.fillers;
    Ok(sides)
}
