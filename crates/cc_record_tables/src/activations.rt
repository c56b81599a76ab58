// What is kept of each live activation.
ghost use Rattle.std.specs.Prelude.{◌≡◌, ℕ, cond, nat_eq, None, Some, true, ◌&&◌, OnOk, OnErr};
ghost use Rattle.cc_record_tables.specs.ActivationTable as spec;
ghost use Rattle.cc_record_tables.specs.ActivationTable.{SameReads, SameAnswers};

use cc_base::Memory;
use cc_record_laws::Entry;
use indexmap::IndexMap;
use std::alloc::Global;

/// What the last read by an occurrence found: the definition of the cell that it read, if there was one.
#[derive(Clone, Copy)]
pub struct Read {
    pub occ: u32,
    pub definition: Option<u32>,
}

/// What is kept of an activation: how it was entered, the definitions of the arguments by number, and what its named
/// arguments and returns have read.
#[derive(Drop)]
pub struct Activation {
    pub entry: Option<Entry>,
    pub passing: Vec<Option<u32>>,
    pub reads: Vec<Read>,
}

/// What is kept of each live activation.
#[derive(Drop)]
pub struct Activations {
    pub alloc: Global,
    pub live: IndexMap<u64, Activation>,
}

// What the last read by an occurrence found.
fn read_in(reads: &[Read], occ: u32) -> Option<u32>
    ensures { result ≡ spec.read_in reads.now occ }
{
    for read in reads {
        if read.occ == occ {
            return read.definition;
        }
    }
    None
}

// The place of the occurrence among these.
fn place(reads: &[Read], occ: u32) -> Option<usize>
    ensures { result ≡ spec.place_from 0 reads.now occ }
{
    for (i, read) in reads.iter().enumerate() {
        if read.occ == occ {
            return Some(i);
        }
    }
    None
}

// Makes a place for what an occurrence reads.
fn make_read_place(reads: &mut Vec<Read>, occ: u32) -> Result<(), Memory>
    ensures same { SameReads reads.old.items reads.new.items }
    ensures room { OnOk result (spec.has_place_in reads.new.items occ ≡ true) }
{
    if place(reads, occ).is_some() {
        return Ok(());
    }
    reads.push(Read {
        occ,
        definition: None,
    })?;
    Ok(())
}

// Keeps what an occurrence that has a place has read.
fn set_read(reads: &mut Vec<Read>, occ: u32, definition: Option<u32>)
    ensures { (u : ℕ) → spec.read_in reads.new.items u
        ≡ cond (nat_eq occ u && spec.has_place_in reads.old.items occ) definition (spec.read_in reads.old.items u) }
{
    if let Some(i) = place(reads, occ) {
        reads[i] = Read { occ, definition };
    }
}

impl Activations {
    /// Nothing is kept. Takes no memory.
    pub fn new(alloc: Global) -> Activations
        ensures { SameAnswers spec.nothing (spec.answers_of result) }
    {
        Activations {
            alloc,
            live: IndexMap::new(alloc),
        }
    }

    /// How an activation was entered.
    pub fn entry(&self, act: u64) -> Option<Entry>
        ensures { result ≡ (spec.answers_of self.now).entry act }
    {
        match self.live.get(&act) {
            Some(activation) => activation.entry,
            None => None,
        }
    }

    /// The definition of argument `k` of an activation, counted from 1.
    pub fn passing(&self, act: u64, k: u32) -> Option<u32>
        ensures { result ≡ (spec.answers_of self.now).passing act k }
    {
        match self.live.get(&act) {
            Some(activation) => passed(&activation.passing, k),
            None => None,
        }
    }

    /// What the last read by an occurrence in an activation found.
    pub fn read(&self, act: u64, occ: u32) -> Option<u32>
        ensures { result ≡ (spec.answers_of self.now).read act occ }
    {
        match self.live.get(&act) {
            Some(activation) => read_in(&activation.reads, occ),
            None => None,
        }
    }

    /// Makes a place for an activation. No answer changes.
    pub fn make_place(&mut self, act: u64) -> Result<(), Memory>
        ensures same { SameAnswers (spec.answers_of self.old) (spec.answers_of self.new) }
        ensures room { OnOk result (spec.has_place self.new act ≡ true) }
    {
        if self.live.get(&act).is_some() {
            return Ok(());
        }
        let activation = Activation {
            entry: None,
            passing: Vec::new(self.alloc),
            reads: Vec::new(self.alloc),
        };
        self.live.insert(act, activation)?;
        Ok(())
    }

    /// Makes a place for what an occurrence reads in an activation. No answer changes.
    pub fn make_read_place(&mut self, act: u64, occ: u32) -> Result<(), Memory>
        ensures same { SameAnswers (spec.answers_of self.old) (spec.answers_of self.new) }
        ensures room { OnOk result (spec.has_read_place self.new act occ ≡ true) }
    {
        self.make_place(act)?;
        match self.live.get_mut(&act) {
            Some(activation) => make_read_place(&mut activation.reads, occ),
            None => Err(Memory),
        }
    }

    /// Keeps how an activation that has a place was entered.
    pub fn enter(&mut self, act: u64, entry: Option<Entry>, passing: Vec<Option<u32>>)
        ensures { SameAnswers (spec.entered act entry passing.items (spec.has_place self.old act) (spec.answers_of self.old))
            (spec.answers_of self.new) }
    {
        if let Some(activation) = self.live.get_mut(&act) {
            activation.entry = entry;
            activation.passing = passing;
        }
    }

    /// Keeps what an occurrence that has a place in an activation has read.
    pub fn set_read(&mut self, act: u64, occ: u32, definition: Option<u32>)
        ensures { SameAnswers (spec.with_read act occ definition (spec.has_read_place self.old act occ) (spec.answers_of self.old))
            (spec.answers_of self.new) }
    {
        if let Some(activation) = self.live.get_mut(&act) {
            set_read(&mut activation.reads, occ, definition);
        }
    }

    /// Keeps nothing of an activation.
    pub fn end(&mut self, act: u64)
        ensures { SameAnswers (spec.without act (spec.answers_of self.old)) (spec.answers_of self.new) }
    {
        self.live.swap_remove(&act);
    }
}

// The definition of argument `k`, counted from 1.
fn passed(passing: &[Option<u32>], k: u32) -> Option<u32>
    ensures { result ≡ spec.passed passing.now k }
{
    if k == 0 {
        return None;
    }
    match passing.get(k as usize - 1) {
        Some(definition) => *definition,
        None => None,
    }
}
