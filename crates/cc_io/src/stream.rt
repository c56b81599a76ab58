// A sink over a writer.
ghost use Rattle.std.specs.Prelude.{◌≡◌, ◌≤◌, ℕ, IsErrOf, None, take};
ghost use Rattle.std.specs.Bool.{OnTrue};
ghost use Rattle.std.specs.Io.KnownBytes.{Appends};
ghost use Rattle.cc_io.specs.Count.{Rose};

use crate::{Sink, SinkFault};
use std::io::{ErrorKind, Write};
use std::marker::Model;

/// A writer as a sink. It tells nothing of what it holds, and never answers `Memory`.
///
/// A contract sees the count of faults.
#[derive(Drop)]
pub struct StreamSink<W: Write + Drop> {
    writer: W,
    faults: u64,
}

impl<W: Write + Drop> Model for StreamSink<W> {
    ghost Value = { ℕ };

    ghost view = { λ s. s.faults };
}

impl<W: Write + Drop> StreamSink<W> {
    /// A sink over this writer.
    pub fn new(writer: W) -> StreamSink<W>
        ensures { result ≡ 0 }
    {
        StreamSink { writer, faults: 0 }
    }
}

// Writes all bytes and flushes, or tells that it could not. A write that takes nothing of a piece is a fault.
fn write_whole<W: Write>(writer: &mut W, bytes: &[u8]) -> bool
    ensures whole { OnTrue result (Appends (W.contents writer.old) (W.contents writer.new) bytes.now) }
    ensures part { (n : ℕ) × Appends (W.contents writer.old) (W.contents writer.new) (take n bytes.now) }
{
    let mut rest = bytes;
    for _ in 0..u64::MAX {
        if rest.is_empty() {
            return writer.flush().is_ok();
        }
        match writer.write(rest) {
            Ok(0) => return false,
            Ok(n) => rest = &rest[n..],
            Err(e) => {
                if e.kind() != ErrorKind::Interrupted {
                    return false;
                }
            }
        }
    }
    false
}

impl<W: Write + Drop> Sink for StreamSink<W> {
    ghost held = { λ _. None };

    ghost faults = { λ s. s };

    // What the trait promises of a sink that tells no bytes, and that memory is never wanting.
    fn put(&mut self, bytes: &[u8]) -> Result<(), SinkFault>
        ensures faults_stay { self.old ≤ self.new }
        ensures failed { IsErrOf result SinkFault.Failed → Rose self.old self.new }
        ensures never_memory { IsErrOf result SinkFault.Memory → ⊥ }
    {
        if write_whole(&mut self.writer, bytes) {
            Ok(())
        } else {
            self.faults = self.faults.saturating_add(1);
            Err(SinkFault::Failed)
        }
    }
}

#[cfg(test)]
mod tests {
    use super::*;
    use std::io;
    use std::test::Fail;

    // Takes one byte in each write, and fails once this many writes are done.
    struct Slow<'a> {
        taken: &'a mut Vec<u8>,
        left: u8,
    }

    impl Drop for Slow<'_> {
        fn drop(self) {
            let Slow { taken: _, left: _ } = self;
        }
    }

    impl Write for Slow<'_> {
        fn write(&mut self, bytes: &[u8]) -> io::Result<usize> {
            if self.left == 0 {
                return Err(io::Error::from(ErrorKind::Other));
            }
            self.left -= 1;
            match bytes.first() {
                Some(byte) => {
                    self.taken.push(*byte)?;
                    Ok(1)
                }
                None => Ok(0),
            }
        }

        fn flush(&mut self) -> io::Result<()> {
            Ok(())
        }
    }

    #[test]
    fn writes_piece_by_piece(rt: HostRuntime) -> Result<(), Fail> {
        for (left, want, well) in [
            (9, "row,kind", true),
            (8, "row,kind", true),
            (3, "row", false),
        ] {
            let mut taken = Vec::new(rt.alloc());
            let mut sink = StreamSink::new(Slow {
                taken: &mut taken,
                left,
            });
            let put = sink.put(b"row,kind");
            drop(sink);
            assert_eq!(rt; put.is_ok(), well, "{left} writes");
            assert_eq!(rt; taken.as_slice(), want.as_bytes(), "{left} writes");
        }
        Ok(())
    }
}
