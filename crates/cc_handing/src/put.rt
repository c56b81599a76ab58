// What may be there, put at the end.
ghost use Rattle.std.specs.Prelude.{◌≡◌, ◌+◌, ◌++◌, OnOk, IfOk};
ghost use Rattle.std.specs.Option.{option_to_list};

use cc_base::Memory;

/// Puts what is there at the end.
pub(crate) fn put<T: Drop>(out: &mut Vec<T>, it: Option<T>) -> Result<(), Memory>
    ensures { OnOk result (out.new.items ≡ out.old.items ++ option_to_list it) }
{
    match it {
        Some(x) => {
            out.push(x)?;
            Ok(())
        }
        None => Ok(()),
    }
}

/// An index as a number of 32 bits.
pub(crate) fn small(i: usize) -> Result<u32, Memory>
    ensures { IfOk result (λ n. n ≡ i) }
{
    if i < 4294967296 {
        Ok(i as u32)
    } else {
        Err(Memory)
    }
}

/// An index, counted from 1.
pub(crate) fn counted(i: usize) -> Result<u32, Memory>
    ensures { IfOk result (λ n. n ≡ i + 1) }
{
    if i < 4294967295 {
        Ok(i as u32 + 1)
    } else {
        Err(Memory)
    }
}
