// What is known at a place.
ghost use Rattle.std.specs.Prelude.{◌≡◌, OnOk};
ghost use Rattle.cc_declare.specs.State as spec;

use crate::tags::Tag;
use cc_base::{List, Memory};
use cc_scopes::Scopes;
use cc_symbols::{
    Completed, Declared, Findings, Known, Offence, Outer, Slots, Symbols, lesser, rule,
};
use cc_tree_notes::Counted;
use cc_types::{Shape, TypeId};
use std::alloc::Global;

/// What is known at a place of a file.
#[derive(Drop)]
pub struct Checker<'a> {
    /// The ordinary names in scope, by the numbers of their declarations (C17 6.2.3).
    pub scopes: Scopes<'a>,
    /// The tags of the file so far, by their numbers in `tagged`. Blocks don't matter to them.
    pub tags: Scopes<'a>,
    pub tagged: Slots<Tag>,
    /// The names of the members so far, a block for each struct whose members are being read.
    pub members: Scopes<'a>,
    pub symbols: Symbols,
    pub found: Findings,
    /// The file, by its number in the project.
    pub file: u32,
    /// The declarators at file scope so far.
    pub outers: List<Outer>,
    /// The struct specifiers with members so far.
    pub completed: List<Completed>,
}

impl<'a> Checker<'a> {
    /// At the beginning of a file, where this is known of the files before. Takes no memory.
    pub fn new(alloc: Global, known: Known, file: u32) -> Checker<'a>
        ensures { result ≡ spec.starting known file }
    {
        Checker {
            scopes: Scopes::new(alloc),
            tags: Scopes::new(alloc),
            tagged: Slots::new(alloc),
            members: Scopes::new(alloc),
            symbols: known.symbols,
            found: known.found,
            file,
            outers: List::new(alloc),
            completed: List::new(alloc),
        }
    }

    /// Takes down what breaks a rule, if anything does. The least offence stays.
    pub fn settle(&mut self, fault: Option<Offence>)
        ensures { self.new ≡ spec.settled self.old fault }
    {
        self.found.least = lesser(self.found.least, fault);
    }

    /// Takes down that a rule is broken at a node.
    pub fn offend(&mut self, note: Counted, rule: u8)
        ensures { self.new ≡ spec.offended self.old note rule }
    {
        self.settle(Some(Offence {
            spot: note.spot,
            rule,
        }));
    }

    /// Takes down that a rule is broken at a node, if it is.
    pub fn offend_if(&mut self, is_broken: bool, note: Counted, rule: u8)
        ensures { self.new ≡ spec.offended_if self.old is_broken note rule }
    {
        if is_broken {
            self.offend(note, rule);
        }
    }

    /// Begins a block.
    pub fn enter(&mut self) -> Result<(), Memory>
        ensures { OnOk result (self.new ≡ spec.entered self.old) }
    {
        self.scopes.enter()
    }

    /// Leaves a block.
    pub fn leave(&mut self)
        ensures { self.new ≡ spec.left self.old }
    {
        self.scopes.leave();
    }

    /// The declaration of this name in this very scope. Takes no memory.
    pub fn here(&self, name: &str) -> Option<u32>
        ensures { result ≡ spec.here self.now name.now }
    {
        if self.scopes.is_here(name) {
            self.scopes.find(name)
        } else {
            None
        }
    }

    /// The declaration of this number.
    pub fn declared(&self, number: Option<u32>) -> Option<Declared>
        ensures { result ≡ spec.declared_at self.now number }
    {
        match number {
            Some(number) => self.symbols.declared.get(number),
            None => None,
        }
    }

    /// The form of a type, if there is one.
    pub fn shape_of(&self, kind: Option<TypeId>) -> Option<Shape>
        ensures { result ≡ spec.shape_at self.now kind }
    {
        match kind {
            Some(t) => Some(self.symbols.types.shape(t)),
            None => None,
        }
    }

    /// Takes down which declaration a name in an expression names (C35).
    pub fn name(&mut self, note: Counted, name: &str)
        ensures { self.new ≡ spec.resolved self.old note name.now }
    {
        match self.scopes.find(name) {
            Some(number) => self.symbols.names.put(note.number, Some(number)),
            None => self.offend(note, rule::DECLARED_NAME),
        }
    }
}
