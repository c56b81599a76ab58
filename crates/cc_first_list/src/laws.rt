//! Laws of the first form.
ghost use Rattle.cc_first_list.specs.Laws.{OneUnit};

/// Bytes spell the parts of at most one file of the first form.
pub fn one_unit()
    ensures { OneUnit }
{}
