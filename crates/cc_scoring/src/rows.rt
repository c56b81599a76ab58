// The rows of a set of couplings.
ghost use Rattle.std.specs.Prelude.{Contains, IfOk};
ghost use Rattle.cc_record_tables.specs.Sets.{seen_in};
ghost use Rattle.cc_scoring.specs.Scored.{AreRows};

use cc_base::{List, Memory};
use cc_meaning::{Listing, RowSet};
use cc_record::CouplingSet;
use std::alloc::Global;

/// The numbers of those rows that the set has, ascending.
#[tactic(auto, using(crate::proofs::Numbers::no_rows, crate::proofs::Numbers::row_in, crate::proofs::Numbers::row_out, crate::proofs::Numbers::all_rows))]
pub fn rows_in(alloc: Global, set: &CouplingSet, listing: &Listing) -> Result<RowSet, Memory>
    ensures { IfOk result (λ rows. AreRows listing.now (λ row. Contains (seen_in set.now) row) rows) }
{
    let mut rows = List::new(alloc);
    for row in 0..listing.len() {
        if set.has(listing.row(row)) {
            rows.push(row)?;
        }
    }
    Ok(rows)
}
