// A shelf of files, read by name.
ghost use Rattle.std.specs.Prelude.{◌≡◌, ◌≤◌, ℕ, List, Option, Ok, IsErrOf, IfOk, IfSome};
ghost use Rattle.cc_io.specs.Count.{Rose};
ghost use Rattle.cc_io.specs.Shelf.{Files, IsWithin, IsFoundIn};

use crate::ByteList;
use std::alloc::Global;

/// What a read found under a name.
#[derive(Drop)]
pub enum Found {
    /// The file's bytes, at most as many as were asked for.
    File(ByteList),
    /// There is no such name.
    Absent,
    /// The file has more bytes than were asked for.
    Long,
}

/// Why a read found out nothing.
#[derive(Clone, Copy, Debug, PartialEq, Eq)]
pub enum ShelfFault {
    /// The read failed.
    Failed,
    /// Memory was wanting.
    Memory,
}

/// Files by name.
pub trait Shelf {
    /// The bytes under each name, where the shelf tells them.
    ghost files: { Self → Option Files };

    /// How often a read failed. Stays at 2^64 - 1 once it is there, as the other counts do.
    ghost faults: { Self → ℕ };

    /// How often a name was not held.
    ghost misses: { Self → ℕ };

    /// How often a file was longer than was asked for.
    ghost longs: { Self → ℕ };

    /// Reads the file of this name, of at most `cap` bytes. The files stay, and no count falls.
    fn read(&mut self, alloc: Global, name: &str, cap: u64) -> Result<Found, ShelfFault>
        ensures keeps { files self.new ≡ files self.old }
        ensures faults_stay { faults self.old ≤ faults self.new }
        ensures misses_stay { misses self.old ≤ misses self.new }
        ensures longs_stay { longs self.old ≤ longs self.new }

        ensures failed { IsErrOf result ShelfFault.Failed
            → Rose (faults self.old) (faults self.new) }
        ensures absent { result ≡ Ok Found.Absent → Rose (misses self.old) (misses self.new) }
        ensures long { result ≡ Ok Found.Long → Rose (longs self.old) (longs self.new) }

        // A file is within the cap whether the files are told or not.
        ensures within { IfOk result (IsWithin cap) }
        ensures told { IfSome (files self.old) (λ files.
            IfOk result (IsFoundIn files name.now cap)) };
}
