// A row that is both justified and exercised.

/// A row that has a reason and is exercised by a test.
#[derive(Clone, Copy, Debug, PartialEq, Eq)]
pub struct Conflict {
    /// The number of the justification, from 0.
    pub index: u32,
    /// The number of the row, from 0.
    pub row: u32,
    /// The number of the first test that exercises the row.
    pub test: u32,
}
