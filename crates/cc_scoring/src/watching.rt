// A recorder of one program's runs.
ghost use Rattle.std.specs.Prelude.{◌≡◌, IfOk, List};
ghost use Rattle.cc_meaning.specs.declared.event.Event.{Event};
ghost use Rattle.cc_program.specs.declared.program.Program.{Program};
ghost use Rattle.cc_orderly_laws.specs.Runs.{IsRun};
ghost use Rattle.cc_scoring.specs.Watching.{IsReady, StandsFor};

use cc_acts::{Acts, Stop};
use cc_base::Memory;
use cc_interp::run_acts;
use cc_meaning::{Event, Test, Watch};
use cc_record::Recorder;
use std::alloc::Global;
use std::marker::{Brand, PhantomData};

/// A run has so many cells at most at any moment.
const MOST_CELLS: u32 = 1_048_576;

/// Names the program whose runs are watched, for proofs alone.
pub trait Subject {
    /// Whether a program is named.
    ghost named: { Program → Type 0 };
}

impl Subject for Brand {
    ghost named = { λ _. ⊥ };
}

/// A recorder of runs of the program that `S` names. What is told to a [`Recorder`] may, as far as [`run_acts`] says, leave
/// it with another program; a list that this recorder stands for is one of the named program's events before and after.
#[derive(Drop)]
pub struct Watching<'p, S> {
    pub recorder: Recorder<'p>,
    pub subject: PhantomData<S>,
}

impl<S: Subject> Watch for Watching<'_, S> {
    ghost use Rattle.cc_scoring.specs.Watching.{StandsFor};

    ghost stands_for = { λ s told. StandsFor S.named s.recorder told };

    fn event(&mut self, event: &Event) -> Result<(), Memory> {
        self.recorder.take(event)
    }
}

/// Runs a test. The recorder then stands for exactly the events of the run.
pub fn run_test<S: Subject>(
    alloc: Global,
    acts: &Acts,
    test: &Test,
    watching: &mut Watching<'_, S>,
) -> Result<Option<Stop>, Memory>
    requires { IsReady S.named watching.old.recorder }
    ensures { IfOk result (λ stop. (events : List Event) × IsRun acts.now test.now events stop × StandsFor S.named watching.new.recorder events) }
{
    watching.recorder.reset();
    run_acts(alloc, acts, test, MOST_CELLS, watching)
}
