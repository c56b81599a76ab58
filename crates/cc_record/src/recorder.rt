// What watches a run and keeps what it exercises.
ghost use Rattle.std.specs.Prelude.{◌≡◌, ◌↔◌, ◌∷◌, ◌++◌, [], List, Contains, IfOk, OnOk, OnErr, cond, map, reverse};
ghost use Rattle.cc_meaning.specs.declared.event.Event.{Event};
ghost use Rattle.cc_meaning.specs.declared.event.Event.TheVariants as event;
ghost use Rattle.cc_meaning.specs.declared.coupling.Coupling.{Coupling};
ghost use Rattle.cc_meaning.specs.declared.event.Cell.{Cell};
ghost use Rattle.cc_program.specs.declared.program.Program.{Program};
ghost use Rattle.cc_record_laws.specs.Exercised.{Exercised};
ghost use Rattle.cc_record_laws.specs.Kept.{top};
ghost use Rattle.cc_record_laws.specs.Orderly.{IsOrderly};
ghost use Rattle.cc_record_laws.specs.Past.{same_cell};
ghost use Rattle.cc_record_tables.specs.CellTable.{slot_of};
ghost use Rattle.cc_record_tables.specs.Sets.{seen_in};
ghost use Rattle.cc_record.specs.Roles.{numbered, roles_of};
ghost use Rattle.cc_record.specs.Recording as spec;
ghost use Rattle.cc_record.specs.Steps.{Adds, after_read};
ghost use Rattle.cc_record.specs.Recording.{Does, Stays, Stands, AreFew};

use crate::asked::{asked_names, make_read_place, set_read};
use crate::gives;
use cc_base::Memory;
use cc_meaning::{Cell, Coupling, Event, Watch};
use cc_program::{FuncId, Program};
use cc_record_laws::{Entry, Passed};
use cc_record_tables::{Activations, Cells, CouplingSet, Slot, begin, finish};
use cc_roles::{arguments, component, named, returned};
use std::alloc::Global;

/// What watches a run and keeps the couplings that it exercises. It keeps what the last events say of each live cell and each
/// live activation, and no list.
#[derive(Drop)]
pub struct Recorder<'p> {
    alloc: Global,
    program: &'p Program,
    asked: Vec<bool>,
    cells: Cells,
    activations: Activations,
    opened: Vec<u64>,
    seen: CouplingSet,
}

impl<'p> Recorder<'p> {
    /// A recorder that has seen nothing.
    pub fn new(alloc: Global, program: &'p Program) -> Result<Recorder<'p>, Memory>
        ensures { IfOk result (λ recorder. Stands program.now recorder []) }
    {
        Ok(Recorder {
            alloc,
            program,
            asked: asked_names(alloc, program)?,
            cells: Cells::new(alloc),
            activations: Activations::new(alloc),
            opened: Vec::new(alloc),
            seen: CouplingSet::new(alloc),
        })
    }

    /// The couplings that the events exercise. Takes no memory.
    pub fn exercised(&self) -> &CouplingSet
        ensures { (p : Program) (told : List Event) → Stands p self.now told → AreFew (roles_of p) → IsOrderly told
            → (q : Coupling) → Contains (seen_in result.now) q ↔ Exercised (roles_of p) told q }
    {
        &self.seen
    }

    /// Forgets all events. Takes no memory.
    pub fn reset(&mut self)
        ensures { (p : Program) (told : List Event) → Stands p self.old told → Stands p self.new [] }
    {
        self.cells = Cells::new(self.alloc);
        self.activations = Activations::new(self.alloc);
        self.opened.clear();
        self.seen.clear();
    }

    /// Takes one event more. Where the recorder stood for a list of events of a program, it then stands for that list and the
    /// event, and still for that list after an error.
    pub fn take(&mut self, event: &Event) -> Result<(), Memory>
        ensures told { OnOk result ((p : Program) (told : List Event) → Stands p self.old told
            → Stands p self.new (told ++ event.now ∷ [])) }
        ensures err { OnErr result ((p : Program) (told : List Event) → Stands p self.old told → Stands p self.new told) }
    {
        match *event {
            Event::Enter { site, callee, act } => self.enter(site, callee, act),
            Event::Pass { site, k, cell, act } => self.pass(site, k, cell, act),
            Event::Def { occ, cell, act } => self.define(occ, cell, act),
            Event::Use { occ, cell, act } => self.read(occ, cell, act),
            Event::Leave { ret, act } => self.leave(ret, act),
            Event::Gone { instance } => {
                self.gone(instance);
                Ok(())
            }
            Event::Ask { .. } => Ok(()),
        }
    }

    // The definition of an argument, by what the activation on top has read.
    fn argument_now(&self, argument: u32) -> Option<u32>
        ensures { result ≡ spec.argument_now self.now argument }
    {
        match named(self.program, argument) {
            None => Some(argument),
            Some(name) => match last_of(&self.opened) {
                Some(act) => self.activations.read(act, name),
                None => None,
            },
        }
    }

    // The definitions of these arguments.
    fn definitions(&self, arguments: &[u32]) -> Result<Vec<Option<u32>>, Memory>
        ensures { IfOk result (λ list. list.items ≡ map (spec.argument_now self.now) arguments.now) }
    {
        let mut list = Vec::new(self.alloc);
        for argument in arguments {
            list.push(self.argument_now(*argument))?;
        }
        Ok(list)
    }

    // The definitions of the arguments of a call.
    fn passing(&self, site: Option<u32>) -> Result<Vec<Option<u32>>, Memory>
        ensures { IfOk result (λ list. list.items ≡ spec.passing self.now site) }
    {
        match site {
            Some(site) => self.definitions(arguments(self.program, site)),
            None => Ok(Vec::new(self.alloc)),
        }
    }

    // A function is entered.
    fn enter(&mut self, site: Option<u32>, callee: FuncId, act: u64) -> Result<(), Memory>
        ensures told { OnOk result (Does self.old self.new (event.Enter site callee act)) }
        ensures err { OnErr result (Stays self.old self.new) }
    {
        let passing = self.passing(site)?;
        self.activations.make_place(act)?;
        begin(&mut self.opened, act)?;
        match note(&mut self.seen, gives::call(self.program, site, callee)) {
            Ok(()) => {
                self.activations.enter(act, entry_of(site, callee), passing);
                Ok(())
            }
            Err(fault) => {
                self.opened.pop();
                Err(fault)
            }
        }
    }

    // An argument is written to a formal.
    fn pass(&mut self, site: u32, k: u32, cell: Cell, act: u64) -> Result<(), Memory>
        ensures told { OnOk result (Does self.old self.new (event.Pass site k cell act)) }
        ensures err { OnErr result (Stays self.old self.new) }
    {
        let argument = numbered(arguments(self.program, site), k);
        let passed = Passed {
            site,
            k,
            entry: self.activations.entry(act),
            definition: self.activations.passing(act, k),
        };
        self.cells.put(cell, Slot::passed(argument, passed))
    }

    // A cell is written.
    fn define(&mut self, occ: u32, cell: Cell, act: u64) -> Result<(), Memory>
        ensures told { OnOk result (Does self.old self.new (event.Def occ cell act)) }
        ensures err { OnErr result (Stays self.old self.new) }
    {
        self.cells.put(cell, Slot::defined(occ))
    }

    // A cell is read.
    fn read(&mut self, occ: u32, cell: Cell, act: u64) -> Result<(), Memory>
        ensures told { OnOk result (Does self.old self.new (event.Use occ cell act)) }
        ensures err { OnErr result (Stays self.old self.new) }
    {
        let slot = self.cells.slot(cell);
        make_read_place(&self.asked, &mut self.activations, act, occ)?;
        note(&mut self.seen, gives::read(self.program, occ, cell, slot))?;
        set_read(&self.asked, &mut self.activations, act, occ, wrote(slot));
        read_by(&mut self.cells, cell, slot, component(self.program, occ));
        Ok(())
    }

    // The definition of what a return gives.
    fn returned_now(&self, ret: u32, act: u64) -> Option<u32>
        ensures { result ≡ spec.returned_now self.now ret act }
    {
        match returned(self.program, ret) {
            None => Some(ret),
            Some(name) => self.activations.read(act, name),
        }
    }

    // The return coupling of an activation that ends so.
    fn left(&self, ret: Option<u32>, act: u64) -> Option<Coupling>
        ensures { result ≡ spec.left self.now ret act }
    {
        let ret = ret?;
        gives::leave(
            self.program,
            self.returned_now(ret, act),
            self.activations.entry(act),
        )
    }

    // An activation ends.
    fn leave(&mut self, ret: Option<u32>, act: u64) -> Result<(), Memory>
        ensures told { OnOk result (Does self.old self.new (event.Leave ret act)) }
        ensures err { OnErr result (Stays self.old self.new) }
    {
        let left = self.left(ret, act);
        note(&mut self.seen, left)?;
        self.activations.end(act);
        finish(&mut self.opened, act);
        Ok(())
    }

    // An object ends.
    fn gone(&mut self, instance: u64)
        ensures { Does self.old self.new (event.Gone instance) }
    {
        self.cells.end(instance);
    }
}

// The activation that was entered last and not left.
#[tactic(auto, using(crate::proofs::Enters::top_last))]
fn last_of(opened: &[u64]) -> Option<u64>
    ensures { result ≡ top (reverse opened.now) }
{
    opened.last().copied()
}

// Adds what an event gives, if it gives anything.
fn note(seen: &mut CouplingSet, given: Option<Coupling>) -> Result<(), Memory>
    ensures added { OnOk result (Adds given (seen_in seen.old) (seen_in seen.new)) }
    ensures err { OnErr result (seen_in seen.new ≡ seen_in seen.old) }
{
    match given {
        Some(coupling) => seen.add(&coupling),
        None => Ok(()),
    }
}

// A component has read a cell of which this is kept.
fn read_by(cells: &mut Cells, cell: Cell, slot: Option<Slot>, component: u32)
    requires { slot ≡ slot_of cells.old cell }
    ensures { (c : Cell) → slot_of cells.new c
        ≡ cond (same_cell cell c) (after_read component slot) (slot_of cells.old c) }
{
    if let Some(slot) = slot {
        cells.replace(cell, slot.read_by(component));
    }
}

// How an activation is entered, if by a call.
fn entry_of(site: Option<u32>, callee: FuncId) -> Option<Entry>
    ensures { result ≡ spec.entry_by site callee }
{
    match site {
        Some(site) => Some(Entry { site, callee }),
        None => None,
    }
}

// The item of this number, counted from 1.
fn numbered(items: &[u32], k: u32) -> Option<u32>
    ensures { result ≡ numbered items.now k }
{
    if k == 0 {
        return None;
    }
    match items.get(k as usize - 1) {
        Some(item) => Some(*item),
        None => None,
    }
}

// The last definition of a cell of which this is kept.
fn wrote(slot: Option<Slot>) -> Option<u32>
    ensures { result ≡ spec.wrote slot }
{
    match slot {
        Some(slot) => slot.wrote,
        None => None,
    }
}

impl Watch for Recorder<'_> {
    ghost use Rattle.cc_record.specs.Recording.{Stands, program_of};

    ghost stands_for = { λ s told. Stands (program_of s) s told };

    fn event(&mut self, event: &Event) -> Result<(), Memory> {
        self.take(event)
    }
}
