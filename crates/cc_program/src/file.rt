// Files of a program.
ghost use Rattle.std.specs.Prelude.{◌≡◌};
ghost use Rattle.cc_program.specs.Files as spec;

use cc_base::{CompId, FileId, Text};

/// A file of the program.
#[derive(Debug, Drop)]
pub struct FileEntry {
    /// Its name, as the project file has it.
    pub name: Text,
    /// The component that it is a part of.
    pub component: CompId,
    /// The number of its first node, and the number after its last.
    pub start: u32,
    pub end: u32,
}

impl FileEntry {
    // Whether a node is one of this file's.
    fn has(&self, node: u32) -> bool
        ensures { result ≡ spec.has self.now node }
    {
        self.start <= node && node < self.end
    }
}

// The first of these files that has a node; the first file of all where there is none.
pub(crate) fn file_with(files: &[FileEntry], node: u32) -> FileId
    ensures { result ≡ spec.file_with files.now node }
{
    let mut number: u32 = 0;
    for file in files {
        if file.has(node) {
            return FileId(number);
        }
        number = next(number);
    }
    FileId(0)
}

// The number after this one, where 2^32 - 1 stands for that many or more.
fn next(number: u32) -> u32
    ensures { result ≡ spec.next number }
{
    if number < u32::MAX {
        number + 1
    } else {
        number
    }
}
