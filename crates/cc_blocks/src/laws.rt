// Laws of rows.
ghost use Rattle.cc_blocks.specs.Pairs.{CountGrows};

/// The count of pairs is a size: a table that has all pairs of another one has as many pairs or more.
pub fn count_grows()
    ensures { CountGrows }
{}
