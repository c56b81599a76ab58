//! Laws of the definitions, for the crates above: each function does nothing, and its contract is the law.
ghost use Rattle.cc_handing.specs.Members.{FormalsAre, FunctionsAre};

/// The table of formals has exactly the formals, with a slot, of the functions with an entry.
pub fn formals_are()
    ensures { FormalsAre }
{}

/// A node has exactly the functions that it defines.
pub fn functions_are()
    ensures { FunctionsAre }
{}
