// A shelf and a sink in memory, without faults.
ghost use Rattle.std.specs.Prelude.{◌≡◌, ℕ, List, Some, [], OnOk, OnErr, IfOk};
ghost use Rattle.std.specs.FinMap as map;

use crate::{ByteList, Found, Memory, Shelf, ShelfFault, Sink, SinkFault};
use std::alloc::{AllocError, Global};
use std::collections::BTreeMap;
use std::marker::Model;

fn copy_of(alloc: Global, bytes: &[u8]) -> Result<Vec<u8>, AllocError>
    ensures { IfOk result (λ copy. copy.items ≡ bytes.now) }
{
    bytes.to_vec(alloc)
}

/// Files in memory, all of them told. No read of it fails.
///
/// A contract sees the files, and how often a name was not held and a file was too long.
#[derive(Drop)]
pub struct SureShelf {
    alloc: Global,
    files: BTreeMap<String, Vec<u8>>,
    misses: u64,
    longs: u64,
}

impl SureShelf {
    ghost use Rattle.cc_io.specs.SureShelf.{stock_of};

    /// A shelf without files.
    pub fn new(alloc: Global) -> SureShelf
        ensures { stock_of result ≡ record { files = map.empty; misses = 0; longs = 0 } }
    {
        SureShelf {
            alloc,
            files: BTreeMap::new(alloc),
            misses: 0,
            longs: 0,
        }
    }

    /// Adds a file, or replaces it, and leaves the rest. After an error all is as it was.
    pub fn add(&mut self, name: &str, bytes: &[u8]) -> Result<(), Memory>
        ensures ok { OnOk result (stock_of self.new ≡ record (stock_of self.old) {
          files = map.insert (stock_of self.old).files name.now bytes.now;
        }) }
        ensures err { OnErr result (stock_of self.new ≡ stock_of self.old) }
    {
        let name = String::from_str(self.alloc, name)?;
        let bytes = copy_of(self.alloc, bytes)?;
        self.files.insert(name, bytes)?;
        Ok(())
    }
}

impl Shelf for SureShelf {
    ghost use Rattle.cc_io.specs.SureShelf.{stock_of};

    ghost files = { λ s. Some (stock_of s).files };

    ghost faults = { λ _. 0 };

    ghost misses = { λ s. (stock_of s).misses };

    ghost longs = { λ s. (stock_of s).longs };

    fn read(&mut self, alloc: Global, name: &str, cap: u64) -> Result<Found, ShelfFault> {
        let Some(bytes) = self.files.get(name) else {
            self.misses = self.misses.saturating_add(1);
            return Ok(Found::Absent);
        };
        if bytes.len() as u64 > cap {
            self.longs = self.longs.saturating_add(1);
            return Ok(Found::Long);
        }
        match copy_of(alloc, bytes) {
            Ok(copy) => Ok(Found::File(ByteList::new(copy))),
            Err(_) => Err(ShelfFault::Memory),
        }
    }
}

/// Bytes in memory, all of them told. No put fails, but memory may be wanting.
///
/// A contract sees the bytes.
#[derive(Drop)]
pub struct SureSink {
    bytes: Vec<u8>,
}

impl Model for SureSink {
    ghost Value = { List ℕ };

    ghost view = { λ s. s.bytes.items };
}

impl SureSink {
    /// A sink that has taken nothing.
    pub fn new(alloc: Global) -> SureSink
        ensures { result ≡ [] }
    {
        SureSink {
            bytes: Vec::new(alloc),
        }
    }

    /// The bytes taken so far. Takes no memory.
    pub fn held(&self) -> &[u8]
        ensures { result.now ≡ self.now }
    {
        &self.bytes
    }
}

impl Sink for SureSink {
    ghost held = { λ s. Some s };

    ghost faults = { λ _. 0 };

    fn put(&mut self, bytes: &[u8]) -> Result<(), SinkFault> {
        match self.bytes.extend_from_slice(bytes) {
            Ok(()) => Ok(()),
            Err(_) => Err(SinkFault::Memory),
        }
    }
}

#[cfg(test)]
mod tests {
    use super::*;
    use std::test::Fail;

    // What a read found, in words.
    fn word_of(found: &Result<Found, ShelfFault>) -> &'static str {
        match found {
            Ok(Found::File(_)) => "file",
            Ok(Found::Absent) => "absent",
            Ok(Found::Long) => "long",
            Err(_) => "fault",
        }
    }

    #[test]
    fn shelf(rt: HostRuntime) -> Result<(), Fail> {
        let mut shelf = SureShelf::new(rt.alloc());
        shelf.add("a.c", b"old")?;
        shelf.add("b.c", b"")?;
        shelf.add("a.c", b"int a;")?;
        for (name, cap, want) in [
            ("a.c", 6, "file"),
            ("a.c", 5, "long"),
            ("b.c", 0, "file"),
            ("c.c", 9, "absent"),
        ] {
            let found = shelf.read(rt.alloc(), name, cap);
            assert_eq!(rt; word_of(&found), want, "{name} within {cap}");
        }
        let Ok(Found::File(bytes)) = shelf.read(rt.alloc(), "a.c", 6) else {
            return Err(Fail::from("no file"));
        };
        assert_eq!(rt; bytes.bytes(), b"int a;".as_slice());
        Ok(())
    }

    #[test]
    fn sink(rt: HostRuntime) {
        let mut sink = SureSink::new(rt.alloc());
        assert!(rt; sink.put(b"one ").is_ok());
        assert!(rt; sink.put(b"two").is_ok());
        assert_eq!(rt; sink.held(), b"one two".as_slice());
    }
}
