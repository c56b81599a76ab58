// The steps from a program to what its tests exercise.
ghost use Rattle.std.specs.Prelude.{◌≡◌, ◌<◌, ◌^◌, ℕ, None, Some, IfErr, IfNone, IfOk, IfSome, length, option_map};
ghost use Rattle.std.specs.Option.{option_copied};
ghost use Rattle.cc_graph.specs.Graphs.{IsGraph};
ghost use Rattle.cc_listing.specs.Answers.{RefusedWhole};
ghost use Rattle.cc_listing.specs.Faults as faults;
ghost use Rattle.cc_program.specs.Programs.{number_of};
ghost use Rattle.cc_scoring.specs.declared.fault.ScoreFault.TheVariants.{Lost, Unfit};
ghost use Rattle.cc_tables.specs.declared.justified.JustifyFault.TheVariants.{NoSuchRow};
ghost use Rattle.cc_reports.specs.Found as spec;

use cc_graph::{Graph, GraphFault, lower};
use cc_listing::{ListFault, listing_of};
use cc_lowering::acts_of;
use cc_meaning::{JustifiedList, Listing, RowReasons, Scores, TestList};
use cc_program::Program;
use cc_score::{Conflict, conflict};
use cc_scoring::{ScoreFault, score};
use cc_tables::{JustifyFault, justify};
use std::alloc::Global;

/// The control points of a program, and its couplings in order.
#[derive(Drop)]
pub struct Listed {
    pub graph: Graph,
    pub listing: Listing,
}

// Why there are no control points, as a fault of the listing.
fn of_graph(fault: GraphFault) -> ListFault
    ensures { result ≡ faults.of_graph fault }
{
    match fault {
        GraphFault::TooManyPoints { count } => ListFault::TooManyPoints { count },
        GraphFault::Memory => ListFault::Memory,
    }
}

// The control points of a program.
fn graph_of(alloc: Global, program: &Program) -> Result<Graph, ListFault>
    ensures graph { IfOk result (λ graph. IsGraph program.now graph) }
    ensures fault { IfErr result (RefusedWhole program.now) }
{
    match lower(alloc, program) {
        Ok(graph) => Ok(graph),
        Err(fault) => Err(of_graph(fault)),
    }
}

/// The listing of a program.
pub fn list_program(alloc: Global, program: &Program) -> Result<Listed, ListFault>
    ensures listed { IfOk result (spec.AreListed program.now) }
    ensures fault { IfErr result (RefusedWhole program.now) }
{
    match graph_of(alloc, program) {
        Ok(graph) => match listing_of(alloc, program, &graph) {
            Ok(listing) => Ok(Listed { graph, listing }),
            Err(fault) => Err(fault),
        },
        Err(fault) => Err(fault),
    }
}

/// The reasons of rows, where rows can be justified. Each justification must have a row.
pub fn reasons_of(
    alloc: Global,
    program: &Program,
    listing: &Listing,
    justified: Option<&JustifiedList>,
) -> Result<Option<RowReasons>, JustifyFault>
    ensures reasons { IfOk result (λ reasons. reasons
        ≡ spec.reasons_of program.now listing.now (option_copied justified.entry)) }
    ensures known { IfOk result (λ _. spec.first_unknown program.now listing.now (option_copied justified.entry) ≡ None) }
    ensures few { IfOk result (λ reasons. IfSome reasons (λ all. length all < 2 ^ 32)) }
    ensures refused { IfErr result (λ fault. (index : ℕ) → fault ≡ NoSuchRow index → option_map number_of
        (spec.first_unknown program.now listing.now (option_copied justified.entry)) ≡ Some index) }
{
    // A listing has fewer than 2^32 rows, and there are no more reasons.
    let _rows = listing.len();
    match justified {
        Some(list) => match justify(alloc, program, listing, list) {
            Ok(reasons) => Ok(Some(reasons)),
            Err(fault) => Err(fault),
        },
        None => Ok(None),
    }
}

/// What the runs of the tests exercise.
pub fn scores_of(
    alloc: Global,
    program: &Program,
    listed: &Listed,
    tests: &TestList,
) -> Result<Scores, ScoreFault>
    ensures scored { IfOk result (λ scores. spec.AreScores program.now listed.now.listing tests.now scores) }
    ensures lost { IfErr result (λ fault. fault ≡ Lost → spec.IsAstray tests.now) }
    ensures unfit { IfErr result (λ fault. fault ≡ Unfit → spec.IsUnfitted program.now) }
{
    match acts_of(alloc, program, &listed.graph) {
        Ok(acts) => score(alloc, program, &acts, &listed.listing, tests),
        Err(_) => Err(ScoreFault::Memory),
    }
}

/// The least row that is justified and exercised, where rows can be justified.
pub fn conflict_of(scores: &Scores, reasons: Option<&RowReasons>) -> Option<Conflict>
    requires { IfSome (option_copied reasons) (λ all. length all < 2 ^ 32) }
    ensures some { IfSome result (spec.IsConflict scores.now.marks (option_copied reasons.entry)) }
    ensures none { IfNone result (spec.AreApart scores.now.marks (option_copied reasons.entry)) }
{
    match reasons {
        Some(reasons) => conflict(scores, reasons),
        None => None,
    }
}
