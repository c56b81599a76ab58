// The facts of a view.
ghost use Rattle.std.specs.Prelude.{◌≡◌, ◌<◌, ◌≤◌, ◌^◌, length, IfOk, Err};
ghost use Rattle.cc_points_base.specs.Layouts.{IsSmall, layout_of};
ghost use Rattle.cc_solver.specs.declared.state.Stop.TheVariants.{TooMany};
ghost use Rattle.cc_points_solve.specs.Law.{FactsExist, TellsFacts, TellsParts, FitFacts, AreTooMany};
ghost use Rattle.cc_points_solve.specs.Solving.{IsProblem};

use crate::problem::{given, joins, table};
use crate::watching::Watching;
use cc_blocks::Rows;
use cc_points_base::{Layout, View, Watch, constraints, lay_out};
use cc_solver::{Edge, Limits, Pair, Stop, solve};
use sqlite_items::Items;
use std::alloc::{AllocError, Global};

/// What the solver is given.
#[derive(Drop)]
pub struct Problem {
    pub layout: Layout,
    pub holders: u32,
    pub given: Vec<Pair>,
    pub joins: Vec<Edge>,
    pub table: Vec<Items<Watch>>,
}

fn make_problem(alloc: Global, view: &View) -> Result<Problem, AllocError>
    requires nodes { length view.now.nodes < 2 ^ 30 }
    requires lists { length view.now.lists < 2 ^ 30 }
    requires small { IsSmall (layout_of view.now) }
    ensures { IfOk result (IsProblem view.now) }
{
    let layout = lay_out(view);
    let constraints = constraints(alloc, view)?;
    let given = given(alloc, &constraints)?;
    let joins = joins(alloc, &constraints)?;
    let holders = layout.spare() + 1;
    let table = table(alloc, holders, &constraints)?;
    Ok(Problem {
        layout,
        holders,
        given,
        joins,
        table,
    })
}

/// The facts of a view, as pairs of the holders of values and slots, with others.
pub fn solve_view(alloc: Global, view: &View, most: u64, room: u64) -> Result<Rows, Stop>
    requires nodes { length view.now.nodes < 2 ^ 30 }
    requires lists { length view.now.lists < 2 ^ 30 }
    requires small { IsSmall (layout_of view.now) }
    requires most { most ≤ 4294967296 }
    requires room { room ≤ 4294967296 }
    ensures exist { IfOk result (λ rows. FactsExist view.now) }
    ensures tells { IfOk result (λ rows. TellsFacts view.now rows.rows.items) }
    ensures parts { IfOk result (λ rows. TellsParts view.now rows.rows.items) }
    ensures fit { IfOk result (λ rows. FitFacts view.now most) }
    ensures many { result ≡ Err TooMany → AreTooMany view.now most }
{
    let problem = make_problem(alloc, view)?;
    let rules = Watching {
        view,
        layout: problem.layout,
        table: problem.table.as_slice(),
    };
    let limits = Limits {
        counters: problem.layout.nodes + problem.layout.slots,
        most,
        room,
    };
    let rows = solve(
        alloc,
        problem.holders,
        problem.given.as_slice(),
        problem.joins.as_slice(),
        &rules,
        limits,
    )?;
    Ok(rows)
}
