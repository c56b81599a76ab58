//! What holds of the runs of every program. Each function does nothing: its contract is the theorem.

ghost use Rattle.cc_first_runs.specs.Laws.{
  EventsAreReached,
  ExercisedAreCouplings,
  ListedLeavesNoneOut,
  MoreEventsExerciseMore,
  MoreTurnsAdd,
  RunsArePaths,
  WholeProgramsEnd,
};

/// Up to its last event the points of a run are a path across, and those of each activation a path within.
pub fn runs_are_paths()
    ensures { RunsArePaths }
{}

/// A path across leads to the points of each event of a run.
pub fn events_are_reached()
    ensures { EventsAreReached }
{}

/// Each call coupling that a run exercises is a call coupling of the program.
pub fn exercised_are_couplings()
    ensures { ExercisedAreCouplings }
{}

/// Rows that are exactly the program's call couplings leave no exercised one out.
pub fn listed_leaves_none_out()
    ensures { ListedLeavesNoneOut }
{}

/// With more turns a run only goes further.
pub fn more_turns_add()
    ensures { MoreTurnsAdd }
{}

/// What a beginning of a run exercises, the whole run exercises.
pub fn more_events_exercise_more()
    ensures { MoreEventsExerciseMore }
{}

/// A run of a whole program whose test calls functions of it ends when its calls are done or its turns are out.
pub fn whole_programs_end()
    ensures { WholeProgramsEnd }
{}
