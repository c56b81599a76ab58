// Lists that contracts see as lists.
ghost use Rattle.std.specs.Prelude.{◌≡◌, ◌<◌, [], ◌∷◌, ◌++◌, length, slice_get, Some, OnOk, OnErr};

use crate::memory::Memory;
use std::alloc::Global;
use std::marker::Model;

/// A list that grows at its end. A contract sees it as the list of its items.
#[derive(Debug, Drop)]
pub struct List<T> {
    items: Vec<T>,
}

impl<T> Model for List<T> {
    ghost use Rattle.std.specs.Prelude.{List as Items};
    ghost use Rattle.std.specs.Coded.{coded_list};

    ghost Value = { Items T };

    ghost coded = { coded_list T.code };

    ghost view = { λ l. l.items.items };
}

impl<T> List<T> {
    /// The empty list. Takes no memory.
    pub fn new(alloc: Global) -> List<T>
        ensures { result ≡ [] }
    {
        List {
            items: Vec::new(alloc),
        }
    }

    /// How many items there are. Takes no memory.
    pub fn len(&self) -> u64
        ensures { result ≡ length self.now }
    {
        self.items.len() as u64
    }

    /// The items, in order. Takes no memory.
    pub fn as_slice(&self) -> &[T]
        ensures { result.now ≡ self.now }
    {
        &self.items
    }

    /// Item `i`, counted from 0. Takes no memory.
    pub fn get(&self, i: u64) -> &T
        requires { i < length self.now }
        ensures { slice_get self.now i ≡ Some result.now }
    {
        &self.items[i as usize]
    }
}

impl<T: Drop> List<T> {
    /// Adds `x` last. Where memory is wanting, the list stays as it was, and `x` is dropped.
    pub fn push(&mut self, x: T) -> Result<(), Memory>
        ensures ok { OnOk result (self.new ≡ self.old ++ x ∷ []) }
        ensures err { OnErr result (self.new ≡ self.old) }
    {
        self.items.push(x)?;
        Ok(())
    }
}

#[cfg(test)]
mod tests {
    use crate::{Bytes, List};
    use std::test::Fail;

    #[test]
    fn lists(rt: HostRuntime) -> Result<(), Fail> {
        let mut list = List::new(rt.alloc());
        assert!(rt; list.len() == 0);
        for word in [b"one", b"two"] {
            list.push(Bytes::new(word.to_vec(rt.alloc())?))?;
        }
        assert!(rt; list.len() == 2);
        assert!(rt; list.get(1).bytes() == b"two".as_slice());
        assert!(rt; list.as_slice().len() == 2);
        Ok(())
    }
}
