// Values in memory of their own.
ghost use Rattle.std.specs.Prelude.{◌≡◌, IfOk};

use cc_base::Memory;
use sqlite_items::Boxed;
use std::alloc::Global;

/// The value in memory of its own. Where memory is wanting, it is dropped.
pub(crate) fn boxed<T: Drop>(alloc: Global, value: T) -> Result<Boxed<T>, Memory>
    ensures { IfOk result (λ b. b ≡ value) }
{
    Ok(Boxed::new(alloc, value)?)
}

/// What may be missing, out of the memory of its own.
pub(crate) fn unboxed<T>(value: Option<Boxed<T>>) -> Option<T>
    ensures { result ≡ value }
{
    match value {
        None => None,
        Some(value) => Some(value.into_inner()),
    }
}
