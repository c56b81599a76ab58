//! Tests of `cc_lex`, apart from it so that it is proved but once: texts with the tokens, the fault or the rule of the
//! profile that each has, worked out by hand from the rules of `docs/tokens.md` and the lists of C17 6.4.1 and 6.4.6.
//! There is no other code.
#![tactic(auto)]

#[cfg(test)]
mod tests;
