// The machine's loop.
ghost use Rattle.std.specs.Prelude.{◌≡◌, [], IfOk, OnErr};
ghost use Rattle.cc_interp.specs.Ran.{Ran, Begun};

use crate::tell::flush;
use cc_acts::{Acts, Stop};
use cc_base::Memory;
use cc_interp_step::{Machine, Outcome, run_step};
use cc_meaning::Watch;

/// Runs the machine from where it is until the test's call has returned or the run stops, and tells the watcher exactly the
/// events of its run. After 2^64 steps it gives up, as if memory were wanting.
pub fn run_machine<W: Watch>(
    m: &mut Machine,
    acts: &Acts,
    watch: &mut W,
) -> Result<Option<Stop>, Memory>
    requires empty { m.old.outbox ≡ [] }
    ensures ran { IfOk result (λ stop. Ran (W.stands_for watch.old) (W.stands_for watch.new) acts.now m.old stop m.new) }
    ensures err { OnErr result (Begun (W.stands_for watch.old) (W.stands_for watch.new) acts.now m.old) }
{
    for _round in 0..u64::MAX {
        let outcome = run_step(m, acts)?;
        flush(&mut m.outbox, watch)?;
        match outcome {
            Outcome::Next => {}
            Outcome::Back => return Ok(None),
            Outcome::Stopped(stop) => return Ok(Some(stop)),
        }
    }
    Err(Memory)
}
