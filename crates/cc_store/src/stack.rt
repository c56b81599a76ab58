// Stacks that contracts see as lists.

ghost use Rattle.std.specs.Prelude.{◌≡◌, [], ◌∷◌, length, OnOk, OnErr, reverse, slice_get, drop};
ghost use Rattle.cc_store.specs.Stacks.{first, rest, above};

use cc_base::Memory;
use std::alloc::Global;
use std::marker::Model;

/// A `Vec` that contracts see as the list of its items, the last pushed first.
#[derive(Drop)]
pub struct Stack<T> {
    items: Vec<T>,
}

impl<T> Model for Stack<T> {
    ghost use Rattle.std.specs.Prelude.{List, reverse};
    ghost use Rattle.std.specs.Coded.{coded_list};

    ghost Value = { List T };

    ghost coded = { coded_list T.code };

    ghost view = { λ s. reverse s.items.items };
}

impl<T> Stack<T> {
    /// The empty stack. Takes no memory.
    pub fn new(alloc: Global) -> Stack<T>
        ensures { result ≡ [] }
    {
        Stack {
            items: Vec::new(alloc),
        }
    }

    /// How many items there are.
    pub fn len(&self) -> usize
        ensures { result ≡ length self.now }
    {
        self.items.len()
    }

    /// The items, the first pushed first.
    pub fn as_slice(&self) -> &[T]
        ensures { reverse result.now ≡ self.now }
    {
        self.items.as_slice()
    }

    /// Takes the last item.
    pub fn pop(&mut self) -> Option<T>
        ensures taken { result ≡ first self.old }
        ensures left { self.new ≡ rest self.old }
    {
        self.items.pop()
    }
}

impl<T: Copy> Stack<T> {
    /// The last item.
    pub fn top(&self) -> Option<T>
        ensures { result ≡ first self.now }
    {
        self.items.last().copied()
    }

    /// The item under `depth` others.
    pub fn under(&self, depth: usize) -> Option<T>
        ensures { result ≡ slice_get self.now depth }
    {
        let len = self.items.as_slice().len();
        if depth < len {
            Some(self.items[len - 1 - depth])
        } else {
            None
        }
    }

    /// The item over `place` others.
    pub fn at(&self, place: usize) -> Option<T>
        ensures { result ≡ above place self.now }
    {
        item_at(&self.items, place)
    }
}

impl<T: Drop> Stack<T> {
    /// Adds an item over the others. Where memory is wanting the stack stays as it was.
    pub fn push(&mut self, item: T) -> Result<(), Memory>
        ensures ok { OnOk result (self.new ≡ item ∷ self.old) }
        ensures err { OnErr result (self.new ≡ self.old) }
    {
        self.items.push(item)?;
        Ok(())
    }

    /// Takes away the last `n` items.
    pub fn remove(&mut self, n: usize)
        ensures { self.new ≡ drop n self.old }
    {
        let len = self.items.as_slice().len();
        self.items.truncate(len.saturating_sub(n));
    }

    /// Takes away all items.
    pub fn clear(&mut self)
        ensures { self.new ≡ [] }
    {
        self.items.clear();
    }
}

// The item at a place of a list.
pub(crate) fn item_at<T: Copy>(items: &[T], place: usize) -> Option<T>
    ensures { result ≡ slice_get items.now place }
{
    if place < items.len() {
        Some(items[place])
    } else {
        None
    }
}
