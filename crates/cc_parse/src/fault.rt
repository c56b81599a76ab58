// Why tokens are no file.

/// Why tokens are no file of the grammar.
#[derive(Clone, Copy, Debug, PartialEq, Eq)]
pub enum ParseFault {
    /// The tokens up to and with this one, counted from 0, begin no file, however deep; at the end it is the number of tokens.
    Syntax { token: u64 },
    /// The tokens up to and with this one begin a file, but one that is too deep.
    TooDeep { token: u64 },
    /// Memory was wanting. No clause says when.
    Memory,
}
