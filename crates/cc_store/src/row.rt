// Lists that are read and written by number.

ghost use Rattle.std.specs.Prelude.{◌≡◌, [], ◌∷◌, ◌++◌, length, replicate, slice_get, slice_set, take, drop, OnOk, OnErr};

use crate::stack::item_at;
use cc_base::Memory;
use std::alloc::Global;
use std::marker::Model;

/// A `Vec` that contracts see as the list of its items, the first one first.
#[derive(Drop)]
pub struct Row<T> {
    items: Vec<T>,
}

impl<T> Model for Row<T> {
    ghost use Rattle.std.specs.Prelude.{List};
    ghost use Rattle.std.specs.Coded.{coded_list};

    ghost Value = { List T };

    ghost coded = { coded_list T.code };

    ghost view = { λ s. s.items.items };
}

impl<T> Row<T> {
    /// The empty list. Takes no memory.
    pub fn new(alloc: Global) -> Row<T>
        ensures { result ≡ [] }
    {
        Row {
            items: Vec::new(alloc),
        }
    }

    /// How many items there are.
    pub fn len(&self) -> usize
        ensures { result ≡ length self.now }
    {
        self.items.len()
    }
}

impl<T> Row<T> {
    /// The items, in order.
    pub fn as_slice(&self) -> &[T]
        ensures { result.now ≡ self.now }
    {
        &self.items
    }

    /// The items from number `from` on, at most `count`.
    pub fn part(&self, from: usize, count: usize) -> &[T]
        ensures { result.now ≡ take count (drop from self.now) }
    {
        part_of(&self.items, from, count)
    }
}

// The items from number `from` on, at most `count`.
#[tactic(auto, using(std::proofs::lemmas::List::drop_min, std::proofs::lemmas::List::take_min))]
fn part_of<T>(items: &[T], from: usize, count: usize) -> &[T]
    ensures { result.now ≡ take count (drop from items.now) }
{
    let rest = &items[from.min(items.len())..];
    &rest[..count.min(rest.len())]
}

impl<T: Copy> Row<T> {
    /// The item of this number.
    pub fn get(&self, i: usize) -> Option<T>
        ensures { result ≡ slice_get self.now i }
    {
        item_at(&self.items, i)
    }

    /// Adds `n` copies of the item at the end.
    pub fn grow(&mut self, n: u32, item: T) -> Result<(), Memory>
        ensures { OnOk result (self.new ≡ self.old ++ replicate n item) }
    {
        let len = self.items.as_slice().len();
        if len > u32::MAX as usize {
            return Err(Memory);
        }
        self.items.resize(len + n as usize, item)?;
        Ok(())
    }
}

impl<T: Drop> Row<T> {
    /// Adds an item at the end. Where memory is wanting the row stays as it was.
    pub fn push(&mut self, item: T) -> Result<(), Memory>
        ensures ok { OnOk result (self.new ≡ self.old ++ item ∷ []) }
        ensures err { OnErr result (self.new ≡ self.old) }
    {
        self.items.push(item)?;
        Ok(())
    }

    /// Puts the item in the place of number i, if there is one.
    pub fn set(&mut self, i: usize, item: T)
        ensures { self.new ≡ slice_set self.old i item }
    {
        if i < self.items.len() {
            self.items[i] = item;
        }
    }

    /// Keeps the first n items.
    pub fn cut(&mut self, n: usize)
        ensures { self.new ≡ take n self.old }
    {
        self.items.truncate(n);
    }
}
