// Numbers of functions and variables.
ghost use Rattle.std.specs.Prelude.{◌≡◌, OnOk, IfOk};
ghost use Rattle.cc_link.specs.Numbers as spec;

use cc_arena::{Arena, Node};
use cc_base::Memory;
use cc_link_rules::{Standing, Standings, named_at, next, standing_at};
use cc_program::{FuncId, Referent, VarId};
use cc_symbols::{Declared, Form, Slots, Symbols};
use std::alloc::Global;

/// Functions and variables so far, each by the number of its first declaration, in the order of their first declarators;
/// and by declaration what it declares.
#[derive(Drop)]
pub struct Numbers {
    pub referents: Slots<Option<Referent>>,
    pub functions: Slots<u32>,
    pub variables: Slots<u32>,
}

// What a declaration declares before there are any numbers.
fn constant(declared: Declared) -> Option<Referent>
    ensures { result ≡ spec.constant declared }
{
    match declared.form {
        Form::Constant(value) => Some(Referent::Constant(value)),
        _ => None,
    }
}

// What each declaration declares before there are any numbers.
fn constants(alloc: Global, declared: &Slots<Declared>) -> Result<Slots<Option<Referent>>, Memory>
    ensures { IfOk result (λ table. table ≡ spec.constants declared.now) }
{
    let mut table = Slots::new(alloc);
    for declared in declared.as_slice() {
        table.push(constant(*declared))?;
    }
    Ok(table)
}

impl Numbers {
    /// What a declaration declares.
    pub fn referent(&self, declaration: u32) -> Option<Referent>
        ensures { result ≡ spec.referent self.now declaration }
    {
        match self.referents.get(declaration) {
            Some(referent) => referent,
            None => None,
        }
    }

    // One function more, by its first declaration.
    fn add_function(&mut self, declaration: u32) -> Result<(), Memory>
        ensures { OnOk result (self.new ≡ spec.function_added declaration self.old) }
    {
        let number = self.functions.count()?;
        self.functions.push(declaration)?;
        self.referents
            .put(declaration, Some(Referent::Function(FuncId(number))));
        Ok(())
    }

    // One variable more, by its first declaration.
    fn add_variable(&mut self, declaration: u32) -> Result<(), Memory>
        ensures { OnOk result (self.new ≡ spec.variable_added declaration self.old) }
    {
        let number = self.variables.count()?;
        self.variables.push(declaration)?;
        self.referents
            .put(declaration, Some(Referent::Variable(VarId(number))));
        Ok(())
    }

    // A declaration of the same function or object as an earlier one.
    fn share(&mut self, declaration: u32, first: u32)
        ensures { self.new ≡ spec.shared declaration first self.old }
    {
        let referent = self.referent(first);
        self.referents.put(declaration, referent);
    }

    // One function or variable more.
    fn add(&mut self, form: Form, declaration: u32) -> Result<(), Memory>
        ensures { OnOk result (self.new ≡ spec.added form declaration self.old) }
    {
        match form {
            Form::Function => self.add_function(declaration),
            Form::Object(_) => self.add_variable(declaration),
            Form::Typedef | Form::Constant(_) => Ok(()),
        }
    }

    // A declaration.
    fn declare(&mut self, form: Form, standing: Standing, declaration: u32) -> Result<(), Memory>
        ensures { OnOk result (self.new ≡ spec.declared form standing declaration self.old) }
    {
        if !is_numbered(form, standing) {
            Ok(())
        } else if standing.first == declaration {
            self.add(form, declaration)
        } else {
            self.share(declaration, standing.first);
            Ok(())
        }
    }
}

// Whether a function or object has a number: it is defined, or a function of the environment, and has a type.
fn is_numbered(form: Form, standing: Standing) -> bool
    ensures { result ≡ spec.is_numbered form standing }
{
    match form {
        Form::Function | Form::Object(_) => {
            standing.kind.is_some() && (standing.definition.is_some() || standing.is_environment)
        }
        Form::Typedef | Form::Constant(_) => false,
    }
}

// The declaration of this number, where the node is its first.
fn if_first(declared: &Slots<Declared>, declaration: u32, node: u32) -> Option<Form>
    ensures { result ≡ spec.if_first declared.now declaration node }
{
    match declared.get(declaration) {
        Some(declared) if declared.node == node => Some(declared.form),
        _ => None,
    }
}

// The name in a declarator.
fn number_name(
    numbers: &mut Numbers,
    symbols: &Symbols,
    standings: &Standings,
    declaration: u32,
    node: u32,
) -> Result<(), Memory>
    ensures { OnOk result (numbers.new
        ≡ spec.name_numbered symbols.now.declared standings.now declaration node numbers.old) }
{
    match if_first(&symbols.declared, declaration, node) {
        Some(form) => numbers.declare(form, standing_at(standings, declaration), declaration),
        None => Ok(()),
    }
}

/// The declaration that the name in a declarator declares; none at another node.
pub fn declared_at(symbols: &Symbols, number: u32, node: Node) -> Option<u32>
    ensures { result ≡ spec.declared_at symbols.now.names number node }
{
    match node {
        Node::Declared(_) => named_at(symbols, number),
        _ => None,
    }
}

// A node.
fn number_node(
    numbers: &mut Numbers,
    symbols: &Symbols,
    standings: &Standings,
    number: u32,
    node: Node,
) -> Result<(), Memory>
    ensures { OnOk result (numbers.new
        ≡ spec.node_numbered symbols.now.declared symbols.now.names standings.now number node numbers.old) }
{
    match declared_at(symbols, number, node) {
        Some(declaration) => number_name(numbers, symbols, standings, declaration, number),
        None => Ok(()),
    }
}

fn number_nodes(
    numbers: &mut Numbers,
    symbols: &Symbols,
    standings: &Standings,
    arena: &Arena,
) -> Result<(), Memory>
    ensures { OnOk result (numbers.new
        ≡ spec.nodes_numbered symbols.now.declared symbols.now.names standings.now 0 arena.now.nodes numbers.old) }
{
    let mut number = 0;
    for placed in arena.nodes.as_slice() {
        number_node(numbers, symbols, standings, number, placed.node)?;
        number = next(number);
    }
    Ok(())
}

/// The numbers of all functions and variables.
pub fn all_numbers(
    alloc: Global,
    symbols: &Symbols,
    standings: &Standings,
    arena: &Arena,
) -> Result<Numbers, Memory>
    ensures { IfOk result (λ numbers.
        numbers ≡ spec.all_numbers symbols.now.declared symbols.now.names standings.now arena.now.nodes) }
{
    let mut numbers = Numbers {
        referents: constants(alloc, &symbols.declared)?,
        functions: Slots::new(alloc),
        variables: Slots::new(alloc),
    };
    number_nodes(&mut numbers, symbols, standings, arena)?;
    Ok(numbers)
}
