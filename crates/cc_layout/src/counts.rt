// Counts as numbers of 32 bits.
ghost use Rattle.std.specs.Prelude.{◌≡◌, IfOk};
ghost use Rattle.cc_program.specs.Programs.{number_of};

use cc_base::Memory;

/// A count as a number; 2^32 - 1 stands for that many or more.
pub(crate) fn narrowed(count: u64) -> u32
    ensures { result ≡ number_of count }
{
    if count < u32::MAX as u64 {
        count as u32
    } else {
        u32::MAX
    }
}

/// A count as a number. Fails where numbers are wanting.
pub(crate) fn small(count: usize) -> Result<u32, Memory>
    ensures { IfOk result (λ n. n ≡ count) }
{
    if count > u32::MAX as usize {
        return Err(Memory);
    }
    Ok(count as u32)
}
