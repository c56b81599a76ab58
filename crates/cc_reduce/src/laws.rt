//! What holds of the tests that are kept. Each law is the contract of a function that does nothing.
ghost use Rattle.cc_reduce.specs.Laws.{EachKeptTestIsNeeded, KeptTestsCoverAll};

/// Each row that a test exercises is exercised by a kept test.
pub fn kept_tests_cover_all()
    ensures { KeptTestsCoverAll }
{}

/// Each kept test exercises a row that no other kept test does.
pub fn each_kept_test_is_needed()
    ensures { EachKeptTestIsNeeded }
{}
