// Which report is asked for, and what it has.

/// What is asked for.
#[derive(Clone, Copy, Debug, PartialEq, Eq)]
pub enum Report {
    /// The listing with marks, and the lines of the criteria.
    Score,
    /// What each test exercises.
    Tests,
    /// How many rows stand between two components.
    Pairs,
    /// Which tests can be left out.
    Reduce,
    /// In which order each test adds most.
    Order,
    /// What is found of the generated project of this number, and the lines of the criteria.
    Summary(u32),
}

/// A report.
#[derive(Debug, Drop)]
pub struct Reported {
    /// The text that is printed.
    pub text: Vec<u8>,
    /// Whether each of the three criteria is met, with justifications or without.
    pub is_met: bool,
}
