// What is done over the files of a project.
ghost use Rattle.std.specs.Prelude.{◌≡◌};
ghost use Rattle.cc_top.specs.Answer.{work_of};

use crate::words::Task;
use cc_reports::Report;

/// What is done over the files of a project.
#[derive(Clone, Copy)]
pub enum Work<'a> {
    /// They are listed.
    List,
    /// They are checked.
    Check,
    /// The tests are run, and this is reported of it.
    Report(Report),
    /// The device couplings are listed and marked, by the file of devices of this name.
    Devices(&'a str),
}

impl Task {
    /// What is done for it.
    pub fn work<'a>(self) -> Work<'a>
        ensures { result ≡ work_of self }
    {
        match self {
            Task::List => Work::List,
            Task::Check => Work::Check,
            Task::Score => Work::Report(Report::Score),
            Task::Tests => Work::Report(Report::Tests),
            Task::Pairs => Work::Report(Report::Pairs),
            Task::Reduce => Work::Report(Report::Reduce),
            Task::Order => Work::Report(Report::Order),
        }
    }
}
