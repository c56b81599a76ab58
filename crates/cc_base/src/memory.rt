// Want of memory.
use std::alloc::{AllocError, AllocFailed};

/// Memory was wanting. No clause says when this comes: it is tied to no refused growth. The crate `cc_io` has this type
/// too, under the same name.
#[derive(Clone, Copy, Debug, PartialEq, Eq)]
pub struct Memory;

impl From<AllocError> for Memory {
    fn from(_: AllocError) -> Memory {
        Memory
    }
}

impl<T: Drop> From<AllocFailed<T>> for Memory {
    fn from(_: AllocFailed<T>) -> Memory {
        Memory
    }
}
