//! Laws of the definitions, for the crates above: each function does nothing, and its contract is the law.
ghost use Rattle.cc_points_view.specs.Within.{ViewsAreWithin};

/// The parts of each occurrence of a program's view are occurrences of the view, and what targets have are slots and
/// functions of it.
pub fn view_is_within()
    ensures { ViewsAreWithin }
{}
