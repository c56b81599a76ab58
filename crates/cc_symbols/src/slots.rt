// A table by number.
ghost use Rattle.std.specs.Prelude.{◌≡◌, [], ◌++◌, ◌∷◌, slice_get, slice_set, length, reverse, OnOk, IfOk};
ghost use Rattle.cc_symbols.specs.Places as spec;

use cc_base::Memory;
use std::alloc::Global;
use std::marker::Model;

/// A place for each number up to some length. A contract sees the list of what stands there.
#[derive(Drop)]
pub struct Slots<T> {
    items: Vec<T>,
}

impl<T> Model for Slots<T> {
    ghost use Rattle.std.specs.Prelude.{List as Items};
    ghost use Rattle.std.specs.Coded.{coded_list};

    ghost Value = { Items T };

    ghost coded = { coded_list T.code };

    ghost view = { λ s. s.items.items };
}

impl<T> Slots<T> {
    /// No places. Takes no memory.
    pub fn new(alloc: Global) -> Slots<T>
        ensures { result ≡ [] }
    {
        Slots {
            items: Vec::new(alloc),
        }
    }

    /// What stands in the places, in order. Takes no memory.
    pub fn as_slice(&self) -> &[T]
        ensures { result.now ≡ self.now }
    {
        &self.items
    }
}

impl<T: Copy> Slots<T> {
    /// One place more.
    pub fn push(&mut self, x: T) -> Result<(), Memory>
        ensures { OnOk result (self.new ≡ self.old ++ x ∷ []) }
    {
        self.items.push(x)?;
        Ok(())
    }

    /// How many places there are, if a number can say it.
    pub fn count(&self) -> Result<u32, Memory>
        ensures { IfOk result (λ n. n ≡ length self.now) }
    {
        if self.items.len() > u32::MAX as usize {
            return Err(Memory);
        }
        Ok(self.items.len() as u32)
    }

    /// What stands at this number, if there is such a place. Takes no memory.
    pub fn get(&self, number: u32) -> Option<T>
        ensures { result ≡ slice_get self.now number }
    {
        if (number as usize) < self.items.len() {
            Some(self.items[number as usize])
        } else {
            None
        }
    }

    /// Puts `x` at this number, if there is such a place. Takes no memory.
    pub fn put(&mut self, number: u32, x: T)
        ensures { self.new ≡ slice_set self.old number x }
    {
        if (number as usize) < self.items.len() {
            self.items[number as usize] = x;
        }
    }

    /// The other way round. Takes no memory.
    pub fn reverse(&mut self)
        ensures { self.new ≡ reverse self.old }
    {
        self.items.reverse();
    }

    /// Places up to this number of them, with `x` in each new one.
    pub fn grow(&mut self, count: u32, x: T) -> Result<(), Memory>
        ensures { OnOk result (self.new ≡ spec.grown self.old count x) }
    {
        for _ in self.items.len()..count as usize {
            self.items.push(x)?;
        }
        Ok(())
    }

    /// Puts `x` at this number. Where there is no such place, there are places up to it from then on, with `other` in those
    /// between.
    pub fn put_far(&mut self, number: u32, x: T, other: T) -> Result<(), Memory>
        ensures { OnOk result (self.new ≡ spec.put_far self.old number x other) }
    {
        self.grow(number, other)?;
        if (number as usize) < self.items.len() {
            self.put(number, x);
            Ok(())
        } else {
            self.push(x)
        }
    }
}
