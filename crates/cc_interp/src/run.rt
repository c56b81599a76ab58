// The run of a test.
ghost use Rattle.std.specs.Prelude.{◌≡◌, [], IfOk, OnOk, OnErr};
ghost use Rattle.cc_interp.specs.Tested.{RanPart, BegunPart, RanSteps, BegunSteps, RanTest, BegunTest, calls_of, run_with};
ghost use Rattle.cc_interp.specs.Tests as spec;

use crate::rounds::run_machine;
use crate::start::{begin, fill_one, fresh, idle, make_lasting};
use crate::tell::flush;
use cc_acts::{Acts, Lasting, Stop};
use cc_base::Memory;
use cc_interp_step::Machine;
use cc_meaning::{Test, TestCall, Watch};
use cc_store::Stack;
use std::alloc::Global;

// Gives these static objects and string literals, the first ones that were made, their first values, and tells them.
fn fill_lasting<W: Watch>(
    m: &mut Machine,
    acts: &Acts,
    objects: &[Lasting],
    watch: &mut W,
) -> Result<Option<Stop>, Memory>
    requires empty { m.old.outbox ≡ [] }
    ensures ran { IfOk result (λ stop. RanPart (W.stands_for watch.old) (W.stands_for watch.new) (spec.fill_lasting acts.now 0 objects.now) m.old.state stop m.new.state) }
    ensures empty { OnOk result (m.new.outbox ≡ []) }
    ensures err { OnErr result (BegunPart (W.stands_for watch.old) (W.stands_for watch.new) (spec.fill_lasting acts.now 0 objects.now) m.old.state) }
{
    let mut k: u32 = 0;
    for object in objects {
        if k == u32::MAX {
            return Err(Memory);
        }
        let stop = fill_one(&mut m.state, &mut m.outbox, acts, *object, k)?;
        flush(&mut m.outbox, watch)?;
        match stop {
            Some(stop) => return Ok(Some(stop)),
            None => k += 1,
        }
    }
    Ok(None)
}

// Runs the test's calls, one after another.
fn run_calls<W: Watch>(
    m: &mut Machine,
    acts: &Acts,
    calls: &[TestCall],
    watch: &mut W,
) -> Result<Option<Stop>, Memory>
    requires empty { m.old.outbox ≡ [] }
    ensures ran { IfOk result (λ stop. RanSteps (W.stands_for watch.old) (W.stands_for watch.new) (calls_of acts.now calls.now) m.old.state stop m.new.state) }
    ensures err { OnErr result (BegunSteps (W.stands_for watch.old) (W.stands_for watch.new) (calls_of acts.now calls.now) m.old.state) }
{
    for call in calls {
        match begin(m, acts, call)? {
            false => return Ok(Some(Stop::Lost)),
            true => match run_machine(m, acts, watch)? {
                Some(stop) => return Ok(Some(stop)),
                None => {}
            },
        }
    }
    Ok(None)
}

// Runs a test from its fresh state.
fn run_from<W: Watch>(
    m: &mut Machine,
    acts: &Acts,
    calls: &[TestCall],
    watch: &mut W,
) -> Result<Option<Stop>, Memory>
    requires empty { m.old.outbox ≡ [] }
    ensures ran { IfOk result (λ stop. RanSteps (W.stands_for watch.old) (W.stands_for watch.new) (run_with acts.now calls.now) m.old.state stop m.new.state) }
    ensures err { OnErr result (BegunSteps (W.stands_for watch.old) (W.stands_for watch.new) (run_with acts.now calls.now) m.old.state) }
{
    let objects = acts.lasting.as_slice();
    match make_lasting(&mut m.state, objects)? {
        Some(stop) => Ok(Some(stop)),
        None => match fill_lasting(m, acts, objects, watch)? {
            Some(stop) => Ok(Some(stop)),
            None => run_calls(m, acts, calls, watch),
        },
    }
}

/// Runs a test over the acts of its program with so many cells, and tells the watcher exactly the events of the run. The
/// answer is why the run stops, if it does not end with its last call. Where memory is wanting, the watcher was told a
/// beginning of the events.
pub fn run_acts<W: Watch>(
    alloc: Global,
    acts: &Acts,
    test: &Test,
    cells: u32,
    watch: &mut W,
) -> Result<Option<Stop>, Memory>
    ensures ran { IfOk result (λ stop. RanTest (W.stands_for watch.old) (W.stands_for watch.new) acts.now test.now cells stop) }
    ensures err { OnErr result (BegunTest (W.stands_for watch.old) (W.stands_for watch.new) acts.now test.now cells) }
{
    let mut m = Machine {
        point: 0,
        frame: idle(),
        operands: Stack::new(alloc),
        callers: Stack::new(alloc),
        state: fresh(alloc, test.turns, cells, test.answers.as_slice())?,
        outbox: Stack::new(alloc),
    };
    run_from(&mut m, acts, test.calls.as_slice(), watch)
}
