// What the tests' runs say of the rows.
use crate::end::End;
use cc_base::{List, Text};

/// For each row the first test whose run exercises it, if there is one.
pub type MarkList = List<Option<u32>>;

/// Numbers of rows, ascending.
pub type RowSet = List<u32>;

/// For each test the rows that its run exercises.
pub type RowSetList = List<RowSet>;

/// For each test the end of its run.
pub type EndList = List<End>;

/// What the runs of the tests exercise of a listing.
#[derive(Drop)]
pub struct Scores {
    /// For each row the number of the first test whose run exercises it, if there is one.
    pub marks: MarkList,
    /// For each test the numbers of the rows that its run exercises, ascending.
    pub exercised: RowSetList,
    /// For each test the end of its run.
    pub ends: EndList,
}

/// How many of some rows, or of some groups of rows, are covered, and how many are justified instead.
#[derive(Clone, Copy, Debug, PartialEq, Eq)]
pub struct Verdict {
    /// How many are exercised by some test.
    pub covered: u32,
    /// How many are not, and the project gives a reason.
    pub justified: u32,
    /// How many there are.
    pub listed: u32,
}

/// The three criteria.
#[derive(Clone, Copy, Debug, PartialEq, Eq)]
pub struct Verdicts {
    /// Of the call rows.
    pub calls: Verdict,
    /// Of the definitions of all other rows: a definition is covered where one of its rows is, and justified where none is
    /// and each has a reason.
    pub defs: Verdict,
    /// Of all rows but the call rows.
    pub uses: Verdict,
}

/// A row that the project justifies: the row's line in the table, after its number, and the reason.
#[derive(Debug, Drop)]
pub struct Justified {
    /// The line, after the row's number and a comma.
    pub line: Text,
    /// Why no test exercises the row.
    pub reason: Text,
}

/// Justifications, in the order of the project file.
pub type JustifiedList = List<Justified>;

/// Why a row needs no test.
#[derive(Debug, Drop)]
pub struct RowReason {
    /// The number of the justification, from 0 in the order of the project file.
    pub index: u32,
    /// Its reason.
    pub reason: Text,
}

/// For each row its reason, if it has one.
pub type RowReasons = List<Option<RowReason>>;
