// What is found of a program and its tests.
ghost use Rattle.std.specs.Prelude.{IfErr, IfOk};
ghost use Rattle.std.specs.Option.{option_copied};
ghost use Rattle.cc_reports.specs.Found.{IsFound};
ghost use Rattle.cc_reports.specs.Reports.{IsRefused};

use crate::fault::ReportFault;
use crate::steps::{conflict_of, list_program, reasons_of, scores_of};
use cc_meaning::{JustifiedList, Listing, RowReasons, Scores, TestList};
use cc_program::Program;
use std::alloc::Global;

/// The couplings of a program, the reasons that are given for them, and what the tests exercise.
#[derive(Drop)]
pub struct Found {
    pub listing: Listing,
    pub reasons: Option<RowReasons>,
    pub scores: Scores,
}

/// What is found of a program and its tests.
pub fn find(
    alloc: Global,
    program: &Program,
    tests: &TestList,
    justified: Option<&JustifiedList>,
) -> Result<Found, ReportFault>
    ensures found { IfOk result (λ found. IsFound program.now tests.now (option_copied justified.entry)
        found.listing found.reasons found.scores) }
    ensures fault { IfErr result (IsRefused program.now tests.now (option_copied justified.entry)) }
{
    let listed = list_program(alloc, program)?;
    let reasons = reasons_of(alloc, program, &listed.listing, justified)?;
    let scores = scores_of(alloc, program, &listed, tests)?;
    match conflict_of(&scores, reasons.as_ref()) {
        Some(conflict) => Err(ReportFault::Covered(conflict)),
        None => Ok(Found {
            listing: listed.listing,
            reasons,
            scores,
        }),
    }
}
