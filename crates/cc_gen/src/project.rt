// A generated project.
ghost use Rattle.std.specs.Prelude.{◌≡◌, ◌<◌, ◌⊎◌, ◌↔◌, [], IfOk, IsErrOf};
ghost use Rattle.cc_io_memory.specs.Shelves.{deck_of};
ghost use Rattle.cc_gen.specs.Generated.{generated, files_to};
ghost use Rattle.cc_gen.specs.declared.fault.GenFault.{GenFault};

use crate::fault::GenFault;
use crate::texts::{project_text, unit_name, unit_text};
use cc_io_memory::MemoryShelf;
use std::alloc::Global;

/// The greatest number of components of a generated project.
pub const MOST: u32 = 60;

/// The generated project of n components, on a shelf of which no read fails: `p.toml`, and `c1.c` to `cn.c`. Each file has
/// 20 functions, each of which writes a variable, calls the function of the same number in the next file, and reads that
/// one's variable; those of the last file only write. Two tests call the functions of the first file with 0 and with n.
///
/// `OutOfRange` comes just where n is not one of 1 to 60.
#[tactic(auto, using(crate::proofs::More::files_more))]
pub fn generate(alloc: Global, n: u32) -> Result<MemoryShelf, GenFault>
    ensures files { IfOk result (λ shelf. deck_of shelf ≡ record {
      files = generated n;
      misses = 0;
      longs = 0;
      faults = 0;
      calls = 0;
      fails = [];
    }) }
    ensures range { IsErrOf result GenFault.OutOfRange ↔ (n < 1) ⊎ (60 < n) }
{
    if n < 1 || n > MOST {
        return Err(GenFault::OutOfRange);
    }
    let mut shelf = MemoryShelf::new(alloc, &[])?;
    let project = project_text(alloc, n)?;
    shelf.add("p.toml", project.as_bytes())?;
    for i in 0..n {
        let name = unit_name(alloc, i + 1)?;
        let text = unit_text(alloc, n, i + 1)?;
        shelf.add(name.as_str(), text.as_bytes())?;
    }
    Ok(shelf)
}
