// Rows as couplings of the program.
ghost use Rattle.std.specs.Prelude.{◌≡◌, IfErr, IfOk};
ghost use Rattle.cc_listing.specs.Faults.{IsNoLimit};
ghost use Rattle.cc_listing.specs.Couplings as spec;

use crate::fault::ListFault;
use cc_meaning::{Coupling, CouplingList};
use cc_program::{FuncId, Program, Referent};
use cc_rows::Row;
use std::alloc::Global;

// The function whose name in a declarator a node is.
fn function_at(program: &Program, node: u32) -> Option<FuncId>
    ensures { result ≡ spec.function_at program.now node }
{
    match program.names(node) {
        Some(Referent::Function(f)) => Some(f),
        _ => None,
    }
}

fn call(site: u32, callee: Option<FuncId>) -> Option<Coupling>
    ensures { result ≡ spec.call site callee }
{
    match callee {
        Some(callee) => Some(Coupling::Call { site, callee }),
        None => None,
    }
}

fn parameter(
    definition: u32,
    site: u32,
    k: u32,
    callee: Option<FuncId>,
    reader: u32,
) -> Option<Coupling>
    ensures { result ≡ spec.parameter definition site k callee reader }
{
    match callee {
        Some(callee) => Some(Coupling::Parameter {
            definition,
            site,
            k,
            callee,
            reader,
        }),
        None => None,
    }
}

fn returned(definition: u32, site: u32, callee: Option<FuncId>) -> Option<Coupling>
    ensures { result ≡ spec.returned definition site callee }
{
    match callee {
        Some(callee) => Some(Coupling::Return {
            definition,
            site,
            callee,
        }),
        None => None,
    }
}

// The coupling that a row stands for, where its function is one of the program.
fn coupling_of(program: &Program, row: Row) -> Option<Coupling>
    ensures { result ≡ spec.coupling_of program.now row }
{
    match row {
        Row::Call { site, callee } => call(site, function_at(program, callee)),
        Row::Shared {
            definition,
            reader,
            object,
        } => Some(Coupling::Shared {
            definition,
            reader,
            object,
        }),
        Row::Parameter {
            definition,
            site,
            argument,
            callee,
            reader,
        } => parameter(
            definition,
            site,
            argument,
            function_at(program, callee),
            reader,
        ),
        Row::Return {
            definition,
            site,
            callee,
        } => returned(definition, site, function_at(program, callee)),
    }
}

/// The couplings that rows stand for, in their order.
pub fn couplings_of(
    alloc: Global,
    program: &Program,
    rows: &[Row],
) -> Result<CouplingList, ListFault>
    ensures are { IfOk result (λ couplings. spec.AreCouplings program.now rows.now couplings) }
    ensures fault { IfErr result IsNoLimit }
{
    let mut couplings = CouplingList::new(alloc);
    for row in rows {
        let Some(coupling) = coupling_of(program, *row) else {
            return Err(ListFault::Internal);
        };
        couplings.push(coupling)?;
    }
    Ok(couplings)
}
