// What watches a run.
ghost use Rattle.std.specs.Prelude.{◌≡◌, List, [], ◌∷◌, ◌++◌, OnOk, OnErr};
ghost use Rattle.cc_meaning.specs.declared.event.Event.{Event};

use crate::event::Event;
use cc_base::{List as Items, Memory};
use std::alloc::Global;

/// What watches a run: it is told each event, in order.
///
/// A watcher stands for lists of events, whatever it keeps of them. Where it stood for a list, it stands for that list and
/// the event once it has been told the event, and still for that list where memory was wanting.
pub trait Watch {
    /// Whether the watcher stands for this list of events.
    ghost stands_for: { Self → List Event → Type 0 };

    /// Takes one event more.
    fn event(&mut self, event: &Event) -> Result<(), Memory>
        ensures told { OnOk result ((told : List Event) → stands_for self.old told → stands_for self.new (told ++ event.now ∷ [])) }
        ensures err { OnErr result ((told : List Event) → stands_for self.old told → stands_for self.new told) };
}

/// A watcher that keeps all that it is told. It stands for the list of events that it keeps, and for no other.
#[derive(Drop)]
pub struct Told {
    /// The events, in order.
    pub events: Items<Event>,
}

impl Told {
    /// A watcher that has been told nothing. Takes no memory.
    pub fn new(alloc: Global) -> Told
        ensures { result.events ≡ [] }
    {
        Told {
            events: Items::new(alloc),
        }
    }
}

impl Watch for Told {
    ghost stands_for = { λ s told. s.events ≡ told };

    fn event(&mut self, event: &Event) -> Result<(), Memory> {
        self.events.push(*event)
    }
}
