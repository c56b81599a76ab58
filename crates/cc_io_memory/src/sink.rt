// A sink in memory with a room, whose puts fail where a list says so.
ghost use Rattle.std.specs.Prelude.{◌≡◌, ◌≤◌, ◌-◌, ◌↔◌, ◌++◌, [], Some, IfOk, OnOk, IsErrOf, length, take, true};
ghost use Rattle.std.specs.Io.KnownBytes.{append_known};
ghost use Rattle.cc_io.specs.Count.{Rose};
ghost use Rattle.cc_io.specs.Sink.{GrowsByPrefix};
ghost use Rattle.cc_io.specs.declared.sink.SinkFault.{SinkFault};
ghost use Rattle.cc_io_memory.specs.Sinks.{vessel_of, after_put, put_fails};

use crate::listed::is_listed;
use cc_io::{Memory, Sink, SinkFault};
use std::alloc::Global;

/// Bytes in memory, all of them told. A put past the room fails, and so do the puts whose numbers were given, counted
/// from 1.
///
/// A contract sees the bytes, the room, the count of faults, how many puts there were, and which fail.
#[derive(Drop)]
pub struct MemorySink {
    space: Vec<u8>,
    used: usize,
    fails: Vec<u64>,
    calls: u64,
    faults: u64,
}

impl MemorySink {
    /// A sink that has taken nothing, of this many bytes' room, of which these puts fail.
    pub fn new(alloc: Global, room: u64, fails: &[u64]) -> Result<MemorySink, Memory>
        ensures { IfOk result (λ sink. vessel_of sink ≡ record {
          held = [];
          room = room;
          faults = 0;
          calls = 0;
          fails = fails.now;
        }) }
    {
        Ok(MemorySink {
            space: vec![in alloc; 0; room as usize]?,
            used: 0,
            fails: fails.to_vec(alloc)?,
            calls: 0,
            faults: 0,
        })
    }

    /// The bytes taken so far. Takes no memory.
    pub fn held(&self) -> &[u8]
        ensures { result.now ≡ (vessel_of self.now).held }
    {
        if self.used <= self.space.len() {
            &self.space[..self.used]
        } else {
            &self.space
        }
    }
}

// Writes as many of the bytes as fit behind those that stand in the space.
fn fill(space: &mut Vec<u8>, used: usize, bytes: &[u8]) -> usize
    ensures part { take result space.new.items
        ≡ take used space.old.items ++ take (length space.old.items - length (take used space.old.items)) bytes.now }
    ensures room { length space.new.items ≡ length space.old.items }
{
    let mut end = used;
    for byte in bytes {
        if end >= space.len() {
            return end;
        }
        space[end] = *byte;
        end += 1;
    }
    end
}

impl Sink for MemorySink {
    ghost held = { λ s. Some (vessel_of s).held };

    ghost faults = { λ s. (vessel_of s).faults };

    /// Takes no memory. Fails just where the number of this put is in the list, or the bytes do not fit.
    fn put(&mut self, bytes: &[u8]) -> Result<(), SinkFault>
        // Just which puts fail, and what stands after each.
        ensures fails { IsErrOf result SinkFault.Failed
            ↔ (put_fails (vessel_of self.old) bytes.now ≡ true) }
        ensures after { vessel_of self.new ≡ after_put (vessel_of self.old) bytes.now }
        ensures never { IsErrOf result SinkFault.Memory → ⊥ }

        // The clauses of the trait.
        ensures faults_stay { (vessel_of self.old).faults ≤ (vessel_of self.new).faults }
        ensures ok { OnOk result (Some (vessel_of self.new).held
            ≡ append_known (Some (vessel_of self.old).held) bytes.now) }
        ensures failed { IsErrOf result SinkFault.Failed
            → Rose (vessel_of self.old).faults (vessel_of self.new).faults }
        ensures prefix { IsErrOf result SinkFault.Failed
            → GrowsByPrefix (Some (vessel_of self.old).held) (Some (vessel_of self.new).held) bytes.now }
        ensures memory { IsErrOf result SinkFault.Memory
            → Some (vessel_of self.new).held ≡ Some (vessel_of self.old).held }
    {
        self.calls = self.calls.saturating_add(1);
        if is_listed(&self.fails, self.calls) {
            self.faults = self.faults.saturating_add(1);
            return Err(SinkFault::Failed);
        }
        let fits = bytes.len() <= self.space.len().saturating_sub(self.used);
        self.used = fill(&mut self.space, self.used, bytes);
        if !fits {
            self.faults = self.faults.saturating_add(1);
            return Err(SinkFault::Failed);
        }
        Ok(())
    }
}
