// What is to be told.
ghost use Rattle.std.specs.Prelude.{◌≡◌, List, [], ◌++◌, OnOk, OnErr, reverse};
ghost use Rattle.cc_meaning.specs.declared.event.Event.{Event};
ghost use Rattle.cc_interp.specs.Ran.{Tells, TellsSome};

use cc_base::Memory;
use cc_meaning::{Event, Watch};
use cc_store::Stack;

// Tells the watcher all of these events, up to the first for which memory is wanting.
fn tell_all<W: Watch>(watch: &mut W, events: &[Event]) -> Result<(), Memory>
    ensures told { OnOk result (Tells (W.stands_for watch.old) (W.stands_for watch.new) events.now) }
    ensures err { OnErr result (TellsSome (W.stands_for watch.old) (W.stands_for watch.new) events.now) }
{
    for event in events {
        watch.event(event)?;
    }
    Ok(())
}

/// Tells what is in the outbox, the event on top last, and empties it.
pub fn flush<W: Watch>(outbox: &mut Stack<Event>, watch: &mut W) -> Result<(), Memory>
    ensures told { OnOk result (Tells (W.stands_for watch.old) (W.stands_for watch.new) (reverse outbox.old)) }
    ensures empty { OnOk result (outbox.new ≡ []) }
    ensures err { OnErr result (TellsSome (W.stands_for watch.old) (W.stands_for watch.new) (reverse outbox.old)) }
{
    tell_all(watch, outbox.as_slice())?;
    outbox.clear();
    Ok(())
}
