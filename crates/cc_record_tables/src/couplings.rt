// The couplings that were seen.
ghost use Rattle.std.specs.Prelude.{◌≡◌, ◌↔◌, ◌⊎◌, IsTrue, OnOk, OnErr, Contains, []};
ghost use Rattle.cc_meaning.specs.declared.coupling.Coupling.{Coupling};
ghost use Rattle.cc_record_tables.specs.Keys as spec;
ghost use Rattle.cc_record_tables.specs.Sets.{seen_in};

use cc_base::Memory;
use cc_meaning::Coupling;
use indexmap::IndexSet;
use std::alloc::Global;

// A coupling, as the set keeps it.
#[derive(Clone, Copy, PartialEq, Eq, Hash)]
pub enum Key {
    Call(u32, u32),
    Shared(u32, u32, u32),
    Parameter(u32, u32, u32, u32, u32),
    Return(u32, u32, u32),
}

/// A set of couplings. A contract sees a list of them, by `seen_in`.
#[derive(Drop)]
pub struct CouplingSet {
    keys: IndexSet<Key>,
}

// How the set keeps a coupling.
fn key_of(coupling: &Coupling) -> Key
    ensures { result ≡ spec.key_of coupling.now }
{
    match *coupling {
        Coupling::Call { site, callee } => Key::Call(site, callee.0),
        Coupling::Shared {
            definition,
            reader,
            object,
        } => Key::Shared(definition, reader, object),
        Coupling::Parameter {
            definition,
            site,
            k,
            callee,
            reader,
        } => Key::Parameter(definition, site, k, callee.0, reader),
        Coupling::Return {
            definition,
            site,
            callee,
        } => Key::Return(definition, site, callee.0),
    }
}

impl CouplingSet {
    /// The empty set. Takes no memory.
    pub fn new(alloc: Global) -> CouplingSet
        ensures { seen_in result ≡ [] }
    {
        CouplingSet {
            keys: IndexSet::new(alloc),
        }
    }

    /// Whether the set has the coupling. Takes no memory.
    pub fn has(&self, coupling: &Coupling) -> bool
        ensures { IsTrue result ↔ Contains (seen_in self.now) coupling.now }
    {
        self.keys.contains(&key_of(coupling))
    }

    /// Adds a coupling. After an error the set is as it was.
    pub fn add(&mut self, coupling: &Coupling) -> Result<(), Memory>
        ensures added { OnOk result ((q : Coupling) → Contains (seen_in self.new) q ↔ Contains (seen_in self.old) q ⊎ (q ≡ coupling.now)) }
        ensures err { OnErr result (seen_in self.new ≡ seen_in self.old) }
    {
        self.keys.insert(key_of(coupling))?;
        Ok(())
    }

    /// Takes all couplings out. Takes no memory.
    pub fn clear(&mut self)
        ensures { seen_in self.new ≡ [] }
    {
        self.keys.clear();
    }
}
