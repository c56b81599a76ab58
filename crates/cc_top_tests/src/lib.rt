//! Tests of the top call, over files in memory. They stand in a crate of their own, so that a change of a test proves
//! nothing else again.
#![tactic(auto)]

#[cfg(test)]
mod tests;
