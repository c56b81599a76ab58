// The rows of a definition.
ghost use Rattle.std.specs.Prelude.{◌≡◌, ℕ, ◌≤◌, length, nat_lt, slice_get};
ghost use Rattle.cc_score.specs.Order.{IsOrdered};
ghost use Rattle.cc_score.specs.Groups as spec;
ghost use Rattle.cc_score.specs.Counts.{defines};

use cc_meaning::{Coupling, Listing};

/// Rows that stand together, by number.
#[derive(Clone, Copy)]
pub struct Group {
    pub start: u32,
    pub end: u32,
}

/// The rows of a definition, which stand together for each kind.
#[derive(Clone, Copy)]
pub struct Groups {
    pub shared: Group,
    pub parameter: Group,
    pub returned: Group,
}

// The kind of a row, by its place in the table.
fn kind_of(row: &Coupling) -> u8
    ensures { result ≡ spec.kind_of row.now }
{
    match *row {
        Coupling::Call { .. } => 0,
        Coupling::Shared { .. } => 1,
        Coupling::Parameter { .. } => 2,
        Coupling::Return { .. } => 3,
    }
}

// The definition of a row; 0 for a call row.
fn definition_or(row: &Coupling) -> u32
    ensures { result ≡ spec.definition_or row.now }
{
    match *row {
        Coupling::Call { .. } => 0,
        Coupling::Shared { definition, .. }
        | Coupling::Parameter { definition, .. }
        | Coupling::Return { definition, .. } => definition,
    }
}

// Whether a row's place is before the rows of this kind and definition.
fn is_before(row: &Coupling, kind: u8, wanted: u64) -> bool
    ensures { result ≡ spec.is_before row.now kind wanted }
{
    let own = kind_of(row);
    own < kind || own == kind && u64::from(definition_or(row)) < wanted
}

// How many rows stand before the rows of this kind and definition.
fn count_before(listing: &Listing, kind: u8, wanted: u64) -> u32
    requires { IsOrdered listing.now }
    ensures { (row : ℕ) → nat_lt row result ≡ spec.stands_before (slice_get listing.now row) kind wanted }
{
    let mut low = 0;
    let mut high = listing.len();
    while low < high {
        let middle = low + (high - low) / 2;
        if is_before(listing.row(middle), kind, wanted) {
            low = middle + 1;
        } else {
            high = middle;
        }
    }
    low
}

// The rows of this kind and definition.
#[tactic(auto, using(crate::proofs::Search::together))]
fn rows_of_kind(listing: &Listing, kind: u8, wanted: u32) -> Group
    requires { IsOrdered listing.now }
    ensures { (row : ℕ) → spec.inside result row ≡ spec.is_of (slice_get listing.now row) kind wanted }
{
    Group {
        start: count_before(listing, kind, u64::from(wanted)),
        end: count_before(listing, kind, u64::from(wanted) + 1),
    }
}

/// The rows of a definition.
pub fn rows_of(listing: &Listing, wanted: u32) -> Groups
    requires { IsOrdered listing.now }
    ensures { (row : ℕ) → spec.has result row ≡ defines (slice_get listing.now row) wanted }
{
    Groups {
        shared: rows_of_kind(listing, 1, wanted),
        parameter: rows_of_kind(listing, 2, wanted),
        returned: rows_of_kind(listing, 3, wanted),
    }
}
