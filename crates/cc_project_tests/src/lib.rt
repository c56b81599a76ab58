//! Tests of `cc_project`, apart from it so that it is proved but once: project files with what each says, or the rule
//! that it breaks and the place, worked out by hand from the rules of `docs/project-file.md`. There is no other code.
#![tactic(auto)]

#[cfg(test)]
mod tests;
