// The numbers of names and of lasting objects.
ghost use Rattle.std.specs.Prelude.{◌≡◌};
ghost use Rattle.cc_layout.specs.Targets as spec;

use cc_arena::Node;
use cc_base::Memory;
use cc_program::{Program, Referent, VarId};
use cc_symbols::{Life, Slots};
use cc_types::{Shape, TypeId};
use std::alloc::Global;

/// What is numbered of a program.
#[derive(Drop)]
pub struct Numbers {
    /// By variable, its number among the names of its function: the formals come first, in order, and then the objects of
    /// blocks in the order of their declarators. 0 for a static object.
    pub names: Slots<u32>,
    /// By node, how many names of its function were numbered before it.
    pub firsts: Slots<u32>,
    /// By node, the number of the first node behind all that is in it.
    pub ends: Slots<u32>,
    /// By node of an initialiser, the type of what it initialises.
    pub targets: Slots<Option<TypeId>>,
    /// By node of a declarator or a string literal, the number of its object among the lasting ones, which are numbered in
    /// the order of their nodes.
    pub lasting: Slots<Option<u32>>,
}

// The variable whose defining declarator's name this is.
fn variable_at(program: &Program, n: u32) -> Option<VarId> {
    match program.names(n) {
        Some(Referent::Variable(v)) => match program.variable(v) {
            Some(variable) if variable.declarator == n => Some(v),
            _ => None,
        },
        _ => None,
    }
}

// How long the variable lives whose defining declarator's name this is.
fn life_at(program: &Program, n: u32) -> Option<Life> {
    match variable_at(program, n) {
        Some(v) => match program.variable(v) {
            Some(variable) => Some(variable.life),
            None => None,
        },
        None => None,
    }
}

/// Whether a node is the name in the declarator of an object of a block.
pub(crate) fn is_local(program: &Program, n: u32) -> bool {
    match life_at(program, n) {
        Some(Life::Local) => true,
        _ => false,
    }
}

// Whether a node is the name in the defining declarator of a static object.
fn is_static(program: &Program, n: u32) -> bool {
    match life_at(program, n) {
        Some(Life::Static) => true,
        _ => false,
    }
}

// Numbers these formals; how many they are.
fn number_formals(names: &mut Slots<u32>, formals: &[VarId]) -> u32 {
    let mut count: u32 = 0;
    for formal in formals {
        names.put(formal.0, count);
        count = count.saturating_add(1);
    }
    count
}

// Numbers the formals of all functions, and notes how many they are at the nodes that define the functions.
fn number_all_formals(program: &Program, numbers: &mut Numbers) {
    for function in program.functions.as_slice() {
        if let Some(body) = function.body {
            let count = number_formals(&mut numbers.names, function.formals.as_slice());
            let definition = program.parent_of(body).unwrap_or(body);
            numbers.firsts.put(definition, count);
        }
    }
}

// Numbers the names of all functions.
fn number_names(program: &Program, numbers: &mut Numbers) {
    number_all_formals(program, numbers);
    let mut count: u32 = 0;
    for n in 0..program.occurrences() {
        if let Some(Node::Definition(_, _)) = program.node(n) {
            count = numbers.firsts.get(n).unwrap_or(0);
        }
        numbers.firsts.put(n, count);
        if is_local(program, n) {
            if let Some(v) = variable_at(program, n) {
                numbers.names.put(v.0, count);
                count = count.saturating_add(1);
            }
        }
    }
}

// The first node behind each node and all that is in it: parts have greater numbers than what they are parts of.
fn number_ends(program: &Program, ends: &mut Slots<u32>) {
    for n in (0..program.occurrences()).rev() {
        let end = ends.get(n).unwrap_or(0).max(n.saturating_add(1));
        ends.put(n, end);
        let up = program.parent_of(n).unwrap_or(n);
        if up < n {
            ends.put(up, ends.get(up).unwrap_or(0).max(end));
        }
    }
}

// The type of part number `k` of an aggregate; of a scalar in braces its own.
fn part_type(program: &Program, t: TypeId, k: usize) -> Option<TypeId> {
    match program.types().shape(t) {
        Shape::Array(_, element, _) => Some(element),
        Shape::Struct(_, id) => match program.members(id).get(k) {
            Some(member) => Some(member.kind),
            None => None,
        },
        _ => Some(t),
    }
}

// What the initialisers in braces initialise, which initialise an object of this type themselves.
fn find_parts(program: &Program, targets: &mut Slots<Option<TypeId>>, t: TypeId, values: &[u32]) {
    for (k, value) in values.iter().enumerate() {
        targets.put(*value, part_type(program, t, k));
    }
}

// What each node of an initialiser initialises.
fn find_targets(program: &Program, targets: &mut Slots<Option<TypeId>>) {
    for n in 0..program.occurrences() {
        match program.node(n) {
            Some(Node::Declared(Some(value))) => targets.put(value, declared_type(program, n)),
            Some(Node::Braces(values)) => {
                if let Some(Some(t)) = targets.get(n) {
                    find_parts(program, targets, t, program.arena().part_list(values));
                }
            }
            _ => {}
        }
    }
}

/// The type of the object that a declarator declares: composed of those of all its declarators where this one defines it.
pub fn declared_type(program: &Program, n: u32) -> Option<TypeId> {
    match variable_at(program, n) {
        Some(v) => match program.variable(v) {
            Some(variable) => Some(variable.ty),
            None => program.kind_of(n),
        },
        None => program.kind_of(n),
    }
}

/// Whether a string literal initialises an array, so that it is no object.
pub fn fills_array(program: &Program, targets: &Slots<Option<TypeId>>, n: u32) -> bool
    ensures { result ≡ spec.fills_array program.now targets.now n }
{
    match targets.get(n) {
        Some(Some(t)) => match program.types().shape(t) {
            Shape::Array(_, _, _) => true,
            _ => false,
        },
        _ => false,
    }
}

// Whether a node stands in an operand of `sizeof`.
fn is_measured(program: &Program, n: u32) -> bool {
    let mut inner = n;
    for _ in 0..program.occurrences() {
        if let Some(Node::SizeExpr(_)) | Some(Node::SizeType(_)) = program.node(inner) {
            return true;
        }
        let up = program.parent_of(inner).unwrap_or(inner);
        if up >= inner {
            return false;
        }
        inner = up;
    }
    false
}

// Whether a node is the declarator of a static object, or a string literal that is an object.
fn is_lasting(program: &Program, targets: &Slots<Option<TypeId>>, n: u32) -> bool {
    match program.node(n) {
        Some(Node::Str(_)) => !fills_array(program, targets, n) && !is_measured(program, n),
        Some(Node::Declared(_)) => is_static(program, n),
        _ => false,
    }
}

// Numbers the lasting objects.
fn number_lasting(program: &Program, numbers: &mut Numbers) {
    let mut next: u32 = 0;
    for n in 0..program.occurrences() {
        if is_lasting(program, &numbers.targets, n) {
            numbers.lasting.put(n, Some(next));
            next = next.saturating_add(1);
        }
    }
}

/// The numbers of a program.
pub fn numbers_of(alloc: Global, program: &Program) -> Result<Numbers, Memory> {
    let count = program.occurrences();
    let mut numbers = Numbers {
        names: Slots::new(alloc),
        firsts: Slots::new(alloc),
        ends: Slots::new(alloc),
        targets: Slots::new(alloc),
        lasting: Slots::new(alloc),
    };
    numbers.names.grow(program.variables(), 0)?;
    numbers.firsts.grow(count, 0)?;
    numbers.ends.grow(count, 0)?;
    numbers.targets.grow(count, None)?;
    numbers.lasting.grow(count, None)?;
    number_names(program, &mut numbers);
    number_ends(program, &mut numbers.ends);
    find_targets(program, &mut numbers.targets);
    number_lasting(program, &mut numbers);
    Ok(numbers)
}
