// Where something stands in a file, and in which.
ghost use Rattle.std.specs.Prelude.{◌≡◌, ◌<◌, ◌^◌, ◌-◌};

/// A file, by its number in the project, from 0.
#[derive(Clone, Copy, Debug, PartialEq, Eq)]
pub struct FileId(pub u32);

/// A component, by its number in the project, from 0.
#[derive(Clone, Copy, Debug, PartialEq, Eq)]
pub struct CompId(pub u32);

/// A line and a column of a file. A tab is one column.
#[derive(Clone, Copy, Debug, PartialEq, Eq)]
pub struct Spot {
    /// The line, counted from 1.
    pub line: u32,
    /// The column in bytes, counted from 1.
    pub column: u32,
}

impl Spot {
    ghost use Rattle.cc_base.specs.Spots.{start, next_spot};

    /// Where the first byte of a file stands.
    pub fn start() -> Spot
        ensures { result ≡ start }
    {
        Spot { line: 1, column: 1 }
    }

    /// Where the byte after this one stands, if `byte` stands here: a line feed (10) ends a line.
    pub fn next(self, byte: u8) -> Spot
        requires line { self.line < 2 ^ 32 - 1 }
        requires column { self.column < 2 ^ 32 - 1 }
        ensures { result ≡ next_spot self byte }
    {
        if byte == b'\n' {
            Spot {
                line: self.line + 1,
                column: 1,
            }
        } else {
            Spot {
                line: self.line,
                column: self.column + 1,
            }
        }
    }
}

/// A spot in a file of the project.
#[derive(Clone, Copy, Debug, PartialEq, Eq)]
pub struct Place {
    /// The file.
    pub file: FileId,
    /// The line in it, counted from 1.
    pub line: u32,
    /// The column in bytes, counted from 1.
    pub column: u32,
}

impl Place {
    ghost use Rattle.cc_base.specs.declared.place.Place.{Place};

    /// The place of a spot of this file.
    pub fn new(file: FileId, spot: Spot) -> Place
        ensures { result ≡ record { file = file; line = spot.line; column = spot.column } }
    {
        Place {
            file,
            line: spot.line,
            column: spot.column,
        }
    }
}

#[cfg(test)]
mod tests {
    use super::*;

    // Whether the bytes of "a", tab, "b", line feed, line feed, "c" and the end stand where they do in a file.
    fn counts_lines_and_columns() -> bool {
        let want = [(1, 1), (1, 2), (1, 3), (1, 4), (2, 1), (3, 1), (3, 2)];
        let mut spot = Spot::start();
        for (i, (line, column)) in want.iter().enumerate() {
            let place = Place::new(FileId(7), spot);
            if (place.file, place.line, place.column) != (FileId(7), *line, *column) {
                return false;
            }
            match b"a\tb\n\nc".get(i) {
                Some(byte) if spot.line < 9 && spot.column < 9 => spot = spot.next(*byte),
                _ => {}
            }
        }
        true
    }

    #[test]
    fn spots(rt: HostRuntime) {
        assert!(rt; counts_lines_and_columns());
    }
}
