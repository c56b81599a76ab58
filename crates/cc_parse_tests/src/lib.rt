//! The tests of the parser's crates, from tokens to files.
//!
//! They stand apart, so that none of those crates is proved again for its tests. `answers` has what the tests ask: how the
//! parser answers a text, which is compared with what a table says.
#![tactic(auto)]

#[cfg(test)]
mod answers;
#[cfg(test)]
mod depths;
#[cfg(test)]
mod files;
#[cfg(test)]
mod readers;
#[cfg(test)]
mod tokens;
