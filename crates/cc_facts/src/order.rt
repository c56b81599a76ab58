// The targets of a holder in ascending order.
ghost use Rattle.std.specs.Prelude.{◌≡◌, ◌≤◌, ◌<◌, None, slice_get, option_map};
ghost use Rattle.std.specs.Option.{option_copied};
ghost use Rattle.cc_facts.specs.Told as spec;
ghost use Rattle.cc_facts.specs.Order as order;

use crate::facts::Facts;
use crate::target::Target;
use cc_blocks::{Row, Rows};

fn row_at(rows: &Rows, holder: u64) -> Option<&Row>
    ensures { option_copied result ≡ slice_get rows.now.rows.items holder }
{
    rows.rows.get(holder as usize)
}

// The least target of a holder from a number on.
fn next_in(rows: &Rows, holder: u64, from: u32) -> Option<u32>
    ensures { order.IsNextIn rows.now.rows.items holder from result }
{
    match row_at(rows, holder) {
        Some(row) => row.first_at_or_after(from),
        None => None,
    }
}

// The target of a holder that so many others of it are below.
fn nth_in(rows: &Rows, holder: u64, place: u64) -> Option<u32>
    ensures { order.IsNthIn rows.now.rows.items holder place result }
{
    match row_at(rows, holder) {
        Some(row) => row.nth(place),
        None => None,
    }
}

impl Facts {
    /// The least number, from one on, of a target that the value of the occurrence may be.
    pub fn next_value(&self, o: u32, from: u32) -> Option<u32>
        ensures inside { o < self.now.occurrences → order.IsNextIn self.now.rows.rows.items o from result }
        ensures outside { self.now.occurrences ≤ o → result ≡ None }
    {
        if o < self.occurrences {
            next_in(&self.rows, u64::from(o), from)
        } else {
            None
        }
    }

    /// The least number, from one on, of a target that the slot may hold.
    pub fn next_held(&self, slot: u32, from: u32) -> Option<u32>
        ensures inside { slot < spec.parts_in self.now
            → order.IsNextIn self.now.rows.rows.items (spec.slot_holder self.now slot) from result }
        ensures outside { spec.parts_in self.now ≤ slot → result ≡ None }
    {
        if slot < self.parts.count() {
            next_in(&self.rows, self.slot_holder(slot), from)
        } else {
            None
        }
    }

    /// The least part, from a number on, that the lvalue may have.
    pub fn next_part(&self, o: u32, from: u32) -> Option<u32>
        ensures inside { o < self.now.occurrences
            → order.IsNextIn self.now.rows.rows.items (spec.place_holder self.now o) from result }
        ensures outside { self.now.occurrences ≤ o → result ≡ None }
    {
        if o < self.occurrences {
            next_in(&self.rows, self.place_holder(o), from)
        } else {
            None
        }
    }

    /// The k-th number of a target that the value of the occurrence may be, counted from 0 in ascending order.
    pub fn nth_value(&self, o: u32, k: u64) -> Option<u32>
        ensures inside { o < self.now.occurrences → order.IsNthIn self.now.rows.rows.items o k result }
        ensures outside { self.now.occurrences ≤ o → result ≡ None }
    {
        if o < self.occurrences {
            nth_in(&self.rows, u64::from(o), k)
        } else {
            None
        }
    }

    /// The k-th number of a target that the slot may hold, counted from 0 in ascending order.
    pub fn nth_held(&self, slot: u32, k: u64) -> Option<u32>
        ensures inside { slot < spec.parts_in self.now
            → order.IsNthIn self.now.rows.rows.items (spec.slot_holder self.now slot) k result }
        ensures outside { spec.parts_in self.now ≤ slot → result ≡ None }
    {
        if slot < self.parts.count() {
            nth_in(&self.rows, self.slot_holder(slot), k)
        } else {
            None
        }
    }

    /// The k-th part that the lvalue may have, counted from 0 in ascending order.
    pub fn part_at(&self, o: u32, k: u64) -> Option<u32>
        ensures inside { o < self.now.occurrences
            → order.IsNthIn self.now.rows.rows.items (spec.place_holder self.now o) k result }
        ensures outside { self.now.occurrences ≤ o → result ≡ None }
    {
        if o < self.occurrences {
            nth_in(&self.rows, self.place_holder(o), k)
        } else {
            None
        }
    }

    // A number as a target.
    fn as_target(&self, number: Option<u32>) -> Option<Target>
        ensures { result ≡ option_map (spec.target_of self.now) number }
    {
        match number {
            Some(number) => Some(self.target(number)),
            None => None,
        }
    }

    /// The k-th target that the value of the occurrence may be, counted from 0, parts before functions.
    pub fn value_at(&self, o: u32, k: u64) -> Option<Target>
        ensures inside { o < self.now.occurrences
            → order.IsTargetAt self.now self.now.rows.rows.items o k result }
        ensures outside { self.now.occurrences ≤ o → result ≡ None }
    {
        self.as_target(self.nth_value(o, k))
    }

    /// The k-th target that the slot may hold, counted from 0, parts before functions.
    pub fn held_at(&self, slot: u32, k: u64) -> Option<Target>
        ensures inside { slot < spec.parts_in self.now
            → order.IsTargetAt self.now self.now.rows.rows.items (spec.slot_holder self.now slot) k result }
        ensures outside { spec.parts_in self.now ≤ slot → result ≡ None }
    {
        self.as_target(self.nth_held(slot, k))
    }
}
