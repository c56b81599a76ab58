// The constraints, sorted for the solver.
ghost use Rattle.std.specs.Prelude.{◌≡◌, [], IfOk, OnOk, length, slice_index_or, replicate};
ghost use Rattle.cc_points_solve.specs.Problems as spec;

use cc_points_base::{Constraint, Watch};
use cc_solver::{Edge, Pair};
use sqlite_items::Items;
use std::alloc::{AllocError, Global};

fn keep_pair(out: &mut Vec<Pair>, c: Constraint) -> Result<(), AllocError>
    ensures { OnOk result (out.new.items ≡ spec.with_pair c out.old.items) }
{
    match c {
        Constraint::Has(holder, target) => {
            out.push(Pair { holder, target })?;
            Ok(())
        }
        _ => Ok(()),
    }
}

/// The pairs that are given.
pub fn given(alloc: Global, constraints: &[Constraint]) -> Result<Vec<Pair>, AllocError>
    ensures { IfOk result (λ out. out.items ≡ spec.givens constraints.now []) }
{
    let mut out = Vec::new(alloc);
    for c in constraints {
        keep_pair(&mut out, *c)?;
    }
    Ok(out)
}

fn keep_edge(out: &mut Vec<Edge>, c: Constraint) -> Result<(), AllocError>
    ensures { OnOk result (out.new.items ≡ spec.with_edge c out.old.items) }
{
    match c {
        Constraint::Joins(from, to) => {
            out.push(Edge { from, to })?;
            Ok(())
        }
        _ => Ok(()),
    }
}

/// The edges that are given.
pub fn joins(alloc: Global, constraints: &[Constraint]) -> Result<Vec<Edge>, AllocError>
    ensures { IfOk result (λ out. out.items ≡ spec.all_joins constraints.now []) }
{
    let mut out = Vec::new(alloc);
    for c in constraints {
        keep_edge(&mut out, *c)?;
    }
    Ok(out)
}

fn empty(alloc: Global, holders: u32) -> Result<Vec<Items<Watch>>, AllocError>
    ensures { IfOk result (λ table. table.items ≡ replicate holders []) }
{
    let mut table = Vec::new(alloc);
    for _holder in 0..holders {
        table.push(Items::new(alloc))?;
    }
    Ok(table)
}

fn put(table: &mut Vec<Items<Watch>>, holder: u32, watch: Watch) -> Result<(), AllocError>
    ensures { OnOk result (table.new.items ≡ spec.put holder watch table.old.items) }
{
    if (holder as usize) < table.len() {
        table[holder as usize].push(watch)?;
    }
    Ok(())
}

fn keep_watch(table: &mut Vec<Items<Watch>>, c: Constraint) -> Result<(), AllocError>
    ensures { OnOk result (table.new.items ≡ spec.with_watch c table.old.items) }
{
    match c {
        Constraint::Watches(holder, watch) => put(table, holder, watch),
        _ => Ok(()),
    }
}

/// For each holder what its targets do.
pub fn table(
    alloc: Global,
    holders: u32,
    constraints: &[Constraint],
) -> Result<Vec<Items<Watch>>, AllocError>
    ensures { IfOk result (λ table. table.items ≡ spec.tabled constraints.now (replicate holders [])) }
{
    let mut out = empty(alloc, holders)?;
    for c in constraints {
        keep_watch(&mut out, *c)?;
    }
    Ok(out)
}
