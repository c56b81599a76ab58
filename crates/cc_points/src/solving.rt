// The facts of a program.
ghost use Rattle.std.specs.Prelude.{◌≡◌, ◌<◌, ◌^◌, length, IfOk, Err};
ghost use Rattle.cc_points_base.specs.Layouts.{IsSmall, layout_of};
ghost use Rattle.cc_points_solve.specs.Law as law;
ghost use Rattle.cc_points_view.specs.Views.{view_of};
ghost use Rattle.cc_solver.specs.declared.state.Stop.TheVariants.{TooMany};
ghost use Rattle.cc_points.specs.declared.solving.PointsFault.TheVariants as fault;
ghost use Rattle.cc_points.specs.Solving as spec;

use crate::keep::keep;
use cc_base::Memory;
use cc_blocks::Rows;
use cc_facts::Facts;
use cc_points_base::{View, is_small};
use cc_points_solve::solve_view;
use cc_points_view::view_of;
use cc_program::Program;
use cc_solver::Stop;
use std::alloc::Global;

/// Why there are no facts.
#[derive(Clone, Copy, Debug, PartialEq, Eq)]
pub enum PointsFault {
    /// They are more than 4,194,304.
    TooManyFacts,
    /// Memory or numbers are wanting.
    Memory,
}

impl From<Memory> for PointsFault {
    ghost from_gives = { λ error fault. fault ≡ spec.wanting };

    fn from(_error: Memory) -> PointsFault {
        PointsFault::Memory
    }
}

// How many facts there may be, and how many pairs the solver may keep in all.
const MOST: u64 = 4_194_304;

const ROOM: u64 = 4_294_967_296;

// The pairs of a view, if its numbers are small.
fn pairs_of(alloc: Global, view: &View) -> Result<Rows, PointsFault>
    ensures small { IfOk result (λ rows. IsSmall (layout_of view.now)) }
    ensures exist { IfOk result (λ rows. law.FactsExist view.now) }
    ensures tells { IfOk result (λ rows. law.TellsFacts view.now rows.rows.items) }
    ensures parts { IfOk result (λ rows. law.TellsParts view.now rows.rows.items) }
    ensures fit { IfOk result (λ rows. law.FitFacts view.now 4194304) }
    ensures many { result ≡ Err fault.TooManyFacts → law.AreTooMany view.now 4194304 }
{
    if view.nodes.as_slice().len() >= 1073741824 || view.lists.as_slice().len() >= 1073741824 {
        return Err(PointsFault::Memory);
    }
    if !is_small(view) {
        return Err(PointsFault::Memory);
    }
    match solve_view(alloc, view, MOST, ROOM) {
        Ok(rows) => Ok(rows),
        Err(Stop::TooMany) => Err(PointsFault::TooManyFacts),
        Err(Stop::Memory) => Err(PointsFault::Memory),
    }
}

/// The points-to facts of a program, exactly: each follows by a rule from earlier ones, and each that follows is there. The
/// table has besides exactly the parts of each lvalue. `TooManyFacts` comes exactly where there are more than 4,194,304
/// facts.
pub fn solve(alloc: Global, program: &Program) -> Result<Facts, PointsFault>
    ensures exist { IfOk result (λ facts. spec.FactsExist (view_of program.now)) }
    ensures table { IfOk result (λ facts. spec.IsFactTable (view_of program.now) facts) }
    ensures tells { IfOk result (λ facts. spec.TellsFacts (view_of program.now) facts) }
    ensures parts { IfOk result (λ facts. spec.TellsParts (view_of program.now) facts) }
    ensures fit { IfOk result (λ facts. spec.FitFacts (view_of program.now)) }
    ensures many { result ≡ Err fault.TooManyFacts → spec.AreTooMany (view_of program.now) }
{
    let view = view_of(alloc, program)?;
    match pairs_of(alloc, &view) {
        Ok(rows) => {
            let facts = keep(alloc, view, rows)?;
            Ok(facts)
        }
        Err(fault) => Err(fault),
    }
}
