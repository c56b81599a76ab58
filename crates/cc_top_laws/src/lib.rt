//! A law of the definitions that the top call answers by: words that are no command, and those that list a project of the
//! first form, have at most one answer over files.
#![tactic(auto)]

ghost use Rattle.cc_top_laws.specs.Laws.{OneAnswer};

/// Words that are no command, and those that list a project of the first form, have at most one answer over files.
pub fn one_answer()
    ensures { OneAnswer }
{}
