// The files of the system.
ghost use Rattle.std.specs.Prelude.{◌≡◌, ◌⊎◌, ◌≤◌, None, IfOk, string_bytes, vec_len};
ghost use Rattle.std.specs.Io.KnownBytes.{Consumes, IsAtEnd};
ghost use Rattle.cc_io.specs.declared.counts.Counts.{Counts};
ghost use Rattle.cc_io.specs.Folder.{EndsFolder, IsFolderOf, IsBeside};

use crate::counts::Counts;
use crate::{ByteList, Found, Shelf, ShelfFault};
use std::alloc::{AllocError, Global};
use std::io::{Error, ErrorKind, Read};
use std::marker::Model;
use std::rt::Files;
use std::{fs, io};

// How many bytes are asked for in one read.
const PIECE: usize = 65_536;

/// The files of a runtime. It tells nothing of their content.
///
/// A contract sees the counts of what went wrong.
#[derive(Drop)]
pub struct HostShelf<'r, R: Files> {
    rt: &'r R,
    project: &'r str,
    folder: &'r str,
    counts: Counts,
}

impl<'r, R: Files> Model for HostShelf<'r, R> {
    ghost Value = { Counts };

    ghost view = { λ s. s.counts };
}

impl<'r, R: Files> HostShelf<'r, R> {
    /// A shelf that looks for names in the folder where the program runs.
    pub fn new(rt: &'r R) -> HostShelf<'r, R>
        ensures { result ≡ Counts.NONE }
    {
        HostShelf {
            rt,
            project: "",
            folder: "",
            counts: Counts::NONE,
        }
    }

    /// A shelf for a project: the project's own name is looked for where the program runs, and each other name in
    /// the folder of the project's file.
    pub fn beside(rt: &'r R, project: &'r str) -> HostShelf<'r, R>
        ensures { result ≡ Counts.NONE }
    {
        HostShelf {
            rt,
            project,
            folder: folder_of(project),
            counts: Counts::NONE,
        }
    }

    // Reads the file of the name, but at most `most` bytes.
    fn read_file(&self, alloc: Global, name: &str, most: u64) -> io::Result<Vec<u8>>
        ensures { IfOk result (λ bytes. vec_len bytes ≤ most) }
    {
        let path = path_of(alloc, self.project, self.folder, name)?;
        let mut file = fs::open(self.rt, path.as_str())?;
        read_at_most(alloc, &mut file, most)
    }
}

// How many bytes a path has up to and with its last `/`.
fn folder_end(path: &[u8]) -> usize
    ensures { EndsFolder path.now result }
{
    let mut end = 0;
    for (i, byte) in path.iter().enumerate() {
        if *byte == b'/' {
            end = i + 1;
        }
    }
    end
}

fn folder_of(path: &str) -> &str
    ensures { IsFolderOf path.now result.now }
{
    &path[..folder_end(path.as_bytes())]
}

// Where a name is looked for.
fn path_of(alloc: Global, project: &str, folder: &str, name: &str) -> Result<String, AllocError>
    ensures { IfOk result (λ path. IsBeside project.now folder.now name.now (string_bytes path)) }
{
    if name == project {
        String::from_str(alloc, name)
    } else {
        format!(in alloc; "{folder}{name}")
    }
}

// Reads to the end, but at most `most` bytes. A read that gives nothing is the end.
fn read_at_most<R: Read>(alloc: Global, reader: &mut R, most: u64) -> io::Result<Vec<u8>>
    ensures most { IfOk result (λ bytes. vec_len bytes ≤ most) }
    ensures bytes { IfOk result (λ bytes. Consumes (R.remaining reader.old) (R.remaining reader.new) bytes.items) }
    ensures whole { IfOk result (λ bytes. (vec_len bytes ≡ most) ⊎ IsAtEnd (R.remaining reader.new)) }
{
    let mut bytes = Vec::new(alloc);
    let mut piece = [0u8; PIECE];
    for _ in 0..u64::MAX {
        let left = most - bytes.len() as u64;
        if left == 0 {
            return Ok(bytes);
        }
        let want = left.min(PIECE as u64) as usize;
        match reader.read(&mut piece[..want]) {
            Ok(0) => return Ok(bytes),
            Ok(n) => bytes.extend_from_slice(&piece[..n])?,
            Err(e) => {
                if e.kind() != ErrorKind::Interrupted {
                    return Err(e);
                }
            }
        }
    }
    Err(Error::from(ErrorKind::Other))
}

impl<'r, R: Files> Shelf for HostShelf<'r, R> {
    ghost files = { λ _. None };

    ghost faults = { λ s. s.faults };

    ghost misses = { λ s. s.misses };

    ghost longs = { λ s. s.longs };

    // A fault of the system whose kind is want of memory raises no count.
    fn read(&mut self, alloc: Global, name: &str, cap: u64) -> Result<Found, ShelfFault> {
        match self.read_file(alloc, name, cap.saturating_add(1)) {
            Ok(bytes) => {
                if bytes.len() as u64 > cap {
                    self.counts.add_long();
                    Ok(Found::Long)
                } else {
                    Ok(Found::File(ByteList::new(bytes)))
                }
            }
            Err(e) => match e.kind() {
                ErrorKind::NotFound => {
                    self.counts.add_miss();
                    Ok(Found::Absent)
                }
                ErrorKind::OutOfMemory => Err(ShelfFault::Memory),
                _ => {
                    self.counts.add_fault();
                    Err(ShelfFault::Failed)
                }
            },
        }
    }
}

#[cfg(test)]
mod tests {
    use super::*;
    use std::test::Fail;

    // What a read found, in words.
    fn word_of(found: &Result<Found, ShelfFault>) -> &'static str {
        match found {
            Ok(Found::File(_)) => "file",
            Ok(Found::Absent) => "absent",
            Ok(Found::Long) => "long",
            Err(ShelfFault::Failed) => "failed",
            Err(ShelfFault::Memory) => "memory",
        }
    }

    #[test]
    fn reads_beside_a_project(rt: HostRuntime) -> Result<(), Fail> {
        fs::create_dir_all(&rt, "host_shelf")?;
        fs::write(&rt, "host_shelf/p.toml", b"format = 1")?;
        fs::write(&rt, "host_shelf/a.c", b"int a;")?;
        fs::write(&rt, "host_shelf.c", b"")?;
        let mut beside = HostShelf::beside(&rt, "host_shelf/p.toml");
        for (name, cap, want) in [
            ("host_shelf/p.toml", 10, "file"),
            ("a.c", 6, "file"),
            ("a.c", 5, "long"),
            ("b.c", 9, "absent"),
            ("host_shelf.c", 9, "absent"),
            ("", 9, "failed"),
        ] {
            let found = beside.read(rt.alloc(), name, cap);
            assert_eq!(rt; word_of(&found), want, "{name} beside the project");
        }
        let mut here = HostShelf::new(&rt);
        let found = here.read(rt.alloc(), "host_shelf.c", 0);
        assert_eq!(rt; word_of(&found), "file");
        let Ok(Found::File(bytes)) = beside.read(rt.alloc(), "a.c", u64::MAX) else {
            return Err(Fail::from("no file"));
        };
        assert_eq!(rt; bytes.bytes(), b"int a;".as_slice());
        Ok(())
    }
}
