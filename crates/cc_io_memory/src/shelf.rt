// A shelf in memory whose reads fail where a list says so.
ghost use Rattle.std.specs.Prelude.{◌≡◌, ◌≤◌, ◌↔◌, Some, Ok, OnOk, OnErr, IfOk, IfSome, IsErrOf, true};
ghost use Rattle.std.specs.FinMap as map;
ghost use Rattle.cc_io.specs.Count.{Rose};
ghost use Rattle.cc_io.specs.Shelf.{IsWithin, IsFoundIn};
ghost use Rattle.cc_io.specs.declared.shelf.Found.{Found};
ghost use Rattle.cc_io.specs.declared.shelf.ShelfFault.{ShelfFault};
ghost use Rattle.cc_io_memory.specs.Shelves.{AfterRead, deck_of, is_due};

use crate::listed::is_listed;
use cc_io::{Found, Memory, Shelf, ShelfFault, SureShelf};
use std::alloc::Global;

/// Files in memory, all of them told. The reads whose numbers were given fail, counted from 1.
///
/// A contract sees the files, the counts, how many reads there were, and which fail.
#[derive(Drop)]
pub struct MemoryShelf {
    files: SureShelf,
    fails: Vec<u64>,
    calls: u64,
    faults: u64,
}

impl MemoryShelf {
    /// A shelf without files, of which these reads fail.
    pub fn new(alloc: Global, fails: &[u64]) -> Result<MemoryShelf, Memory>
        ensures { IfOk result (λ shelf. deck_of shelf ≡ record {
          files = map.empty;
          misses = 0;
          longs = 0;
          faults = 0;
          calls = 0;
          fails = fails.now;
        }) }
    {
        Ok(MemoryShelf {
            files: SureShelf::new(alloc),
            fails: fails.to_vec(alloc)?,
            calls: 0,
            faults: 0,
        })
    }

    /// Adds a file, or replaces it, and leaves the rest. After an error all is as it was.
    pub fn add(&mut self, name: &str, bytes: &[u8]) -> Result<(), Memory>
        ensures ok { OnOk result (deck_of self.new ≡ record (deck_of self.old) {
          files = map.insert (deck_of self.old).files name.now bytes.now;
        }) }
        ensures err { OnErr result (deck_of self.new ≡ deck_of self.old) }
    {
        self.files.add(name, bytes)
    }
}

impl Shelf for MemoryShelf {
    ghost files = { λ s. Some (deck_of s).files };

    ghost faults = { λ s. (deck_of s).faults };

    ghost misses = { λ s. (deck_of s).misses };

    ghost longs = { λ s. (deck_of s).longs };

    /// Fails just where the number of this read is in the list.
    fn read(&mut self, alloc: Global, name: &str, cap: u64) -> Result<Found, ShelfFault>
        // Just which reads fail, and what a read counts.
        ensures fails { IsErrOf result ShelfFault.Failed ↔ (is_due (deck_of self.old) ≡ true) }
        ensures counts { AfterRead (deck_of self.old) (deck_of self.new) }

        // The clauses of the trait.
        ensures keeps { Some (deck_of self.new).files ≡ Some (deck_of self.old).files }
        ensures faults_stay { (deck_of self.old).faults ≤ (deck_of self.new).faults }
        ensures misses_stay { (deck_of self.old).misses ≤ (deck_of self.new).misses }
        ensures longs_stay { (deck_of self.old).longs ≤ (deck_of self.new).longs }
        ensures failed { IsErrOf result ShelfFault.Failed
            → Rose (deck_of self.old).faults (deck_of self.new).faults }
        ensures absent { result ≡ Ok Found.Absent
            → Rose (deck_of self.old).misses (deck_of self.new).misses }
        ensures long { result ≡ Ok Found.Long
            → Rose (deck_of self.old).longs (deck_of self.new).longs }
        ensures within { IfOk result (IsWithin cap) }
        ensures told { IfSome (Some (deck_of self.old).files) (λ files.
            IfOk result (IsFoundIn files name.now cap)) }
    {
        self.calls = self.calls.saturating_add(1);
        if is_listed(&self.fails, self.calls) {
            self.faults = self.faults.saturating_add(1);
            return Err(ShelfFault::Failed);
        }
        self.files.read(alloc, name, cap)
    }
}
