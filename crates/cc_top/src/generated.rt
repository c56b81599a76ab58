// The summary of a generated project.
ghost use Rattle.std.specs.Prelude.{◌≡◌, IfErr};
ghost use Rattle.cc_top.specs.Answer.{OfGenerated};
ghost use Rattle.cc_top.specs.Refusal.{IsOfInput};
ghost use Rattle.cc_top.specs.Refusal as spec;
ghost use Rattle.cc_top.specs.Tells.{Tells};

use crate::output::Output;
use crate::refusal::{Internal, Refusal};
use crate::steps::task_text;
use crate::work::Work;
use cc_gen::{GenFault, generate};
use cc_reports::Report;
use std::alloc::Global;

// The name of each generated project.
const NAME: &str = "p.toml";

// Why there is no text for files that nobody handed over.
fn of_generated(refusal: Refusal) -> Refusal
    ensures { result ≡ spec.of_generated refusal }
{
    match refusal {
        Refusal::ReadFault(_) | Refusal::Missing(_) | Refusal::TooLong(_) => {
            Refusal::Internal(Internal::Generated)
        }
        other => other,
    }
}

/// The summary of the generated project of n components, n from 1 to 60.
pub fn generated_text(alloc: Global, n: u32) -> Result<Output, Refusal>
    ensures told { Tells (OfGenerated n) result }
    ensures input { IfErr result IsOfInput }
{
    let mut shelf = match generate(alloc, n) {
        Ok(shelf) => shelf,
        Err(GenFault::OutOfRange) => return Err(Refusal::Internal(Internal::Generated)),
        Err(GenFault::Memory) => return Err(Refusal::Memory),
    };
    match task_text(alloc, &mut shelf, Work::Report(Report::Summary(n)), NAME) {
        Ok(output) => Ok(output),
        Err(refusal) => Err(of_generated(refusal)),
    }
}
