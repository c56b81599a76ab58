// What the tests' runs exercise.
ghost use Rattle.std.specs.Prelude.{◌≡◌, ◌≢◌, Err, IfOk, true};
ghost use Rattle.cc_program.specs.declared.program.Program.{Program};
ghost use Rattle.cc_scoring.specs.declared.fault.ScoreFault.TheVariants.{Lost, Unfit};
ghost use Rattle.cc_scoring.specs.Fit.{IsUnfit};
ghost use Rattle.cc_scoring.specs.Fit as fit;
ghost use Rattle.cc_scoring.specs.Runs.{IsLost, AnyIsLost};
ghost use Rattle.cc_scoring.specs.Scored.{IsOfRun, IsScored};
ghost use Rattle.cc_scoring.specs.Watching.{IsReady};

use crate::ends::end_of;
use crate::fault::ScoreFault;
use crate::fit::are_few;
use crate::rows::rows_in;
use crate::watching::{Subject, Watching, run_test};
use cc_acts::Acts;
use cc_base::{List, Memory};
use cc_meaning::{End, Listing, RowSet, Scores, Test, TestList};
use cc_orderly_laws::{are_entered, runs_are_orderly};
use cc_program::Program;
use cc_record::Recorder;
use cc_score::first_tests;
use std::alloc::Global;
use std::marker::{Brand, PhantomData};

// What the run of a test exercises.
#[derive(Drop)]
struct TestScore {
    exercised: RowSet,
    end: End,
}

// Runs a test: the rows that its run exercises, and its end.
fn score_test<S: Subject>(
    alloc: Global,
    acts: &Acts,
    listing: &Listing,
    test: &Test,
    watching: &mut Watching<'_, S>,
) -> Result<TestScore, ScoreFault>
    requires ready { IsReady S.named watching.old.recorder }
    requires few { (p : Program) → S.named p → fit.are_few p.files ≡ true }
    requires entered { fit.are_entered acts.now ≡ true }
    ensures ready { IfOk result (λ _. IsReady S.named watching.new.recorder) }
    ensures scored { IfOk result (λ score. (p : Program) → S.named p → IsOfRun p acts.now listing.now test.now score.exercised score.end) }
    ensures lost { result ≡ Err Lost → IsLost acts.now test.now }
    ensures fit { result ≢ Err Unfit }
{
    // The law by which the recorder is exact.
    runs_are_orderly();
    match end_of(run_test(alloc, acts, test, watching)?) {
        Some(end) => Ok(TestScore {
            exercised: rows_in(alloc, watching.recorder.exercised(), listing)?,
            end,
        }),
        None => Err(ScoreFault::Lost),
    }
}

// Runs the tests, one after another, with a recorder of runs of the program that `S` names.
fn score_of<S: Subject>(
    alloc: Global,
    program: &Program,
    acts: &Acts,
    listing: &Listing,
    tests: &TestList,
) -> Result<Scores, ScoreFault>
    requires one { (p : Program) → S.named p → p ≡ program.now }
    requires named { S.named program.now }
    requires few { fit.are_few program.now.files ≡ true }
    requires entered { fit.are_entered acts.now ≡ true }
    ensures scored { IfOk result (λ scores. IsScored program.now acts.now listing.now tests.now scores) }
    ensures lost { result ≡ Err Lost → AnyIsLost acts.now tests.now }
    ensures fit { result ≢ Err Unfit }
{
    if tests.len() > u64::from(u32::MAX) {
        return Err(ScoreFault::Memory);
    }
    let mut watching: Watching<S> = Watching {
        recorder: Recorder::new(alloc, program)?,
        subject: PhantomData,
    };
    let mut exercised = List::new(alloc);
    let mut ends = List::new(alloc);
    for test in tests.as_slice() {
        let score = score_test(alloc, acts, listing, test, &mut watching)?;
        exercised.push(score.exercised)?;
        ends.push(score.end)?;
    }
    let marks = first_tests(alloc, listing.len(), &exercised)?;
    Ok(Scores {
        marks,
        exercised,
        ends,
    })
}

/// What the tests' runs over the acts of the program exercise of the listing: for each test the rows that its run exercises
/// and the end of the run, and for each row the first test whose run exercises it. A run has 1,048,576 cells at most.
///
/// Where the machine is lost in a test's run the error is `Lost`; `Unfit` comes where the recorder might be wrong of such runs.
/// After an error of memory nothing is known.
pub fn score(
    alloc: Global,
    program: &Program,
    acts: &Acts,
    listing: &Listing,
    tests: &TestList,
) -> Result<Scores, ScoreFault>
    ensures scored { IfOk result (λ scores. IsScored program.now acts.now listing.now tests.now scores) }
    ensures lost { result ≡ Err Lost → AnyIsLost acts.now tests.now }
    ensures unfit { result ≡ Err Unfit → IsUnfit program.now acts.now }
{
    if !are_few(program) || !are_entered(acts) {
        return Err(ScoreFault::Unfit);
    }
    score_of::<Brand>(alloc, program, acts, listing, tests)
}
