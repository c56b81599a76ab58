// The three criteria.
ghost use Rattle.std.specs.Prelude.{◌≡◌, ◌<◌, ◌≤◌, ◌-◌, ◌^◌, ◌&&◌, ◌||◌, Some, is_some, length, nat_lt, not, slice_get};
ghost use Rattle.std.specs.Option.{option_copied};
ghost use Rattle.cc_score.specs.Any.{Finds};
ghost use Rattle.cc_score.specs.Counts as spec;
ghost use Rattle.cc_score.specs.Groups.{inside};
ghost use Rattle.cc_score.specs.Marks as marks;
ghost use Rattle.cc_score.specs.Order.{IsOrdered};

use crate::groups::{Group, rows_of};
use crate::marks::{has_reason, mark};
use cc_meaning::{Coupling, Listing, RowReasons, Scores, Verdict, Verdicts};

/// How much of a listing is covered: of the call rows, of the definitions of all other rows, and of these rows. A row is
/// covered where it has a mark, and justified where it has a reason and no mark. A definition is covered where a row of it
/// is, and justified where none is and each has a reason. Where `reasons` is not given, nothing is justified. Rows stand by
/// kind and, past the calls, by definition. Takes no memory.
pub fn verdicts(listing: &Listing, scores: &Scores, reasons: Option<&RowReasons>) -> Verdicts
    requires { IsOrdered listing.now }
    ensures { result ≡ spec.verdicts listing.now scores.now.marks (option_copied reasons.entry) }
{
    Verdicts {
        calls: rows_verdict(listing, scores, reasons, true),
        defs: defs_verdict(listing, scores, reasons),
        uses: rows_verdict(listing, scores, reasons, false),
    }
}

// The definition of a row that is no call row.
fn definition(row: &Coupling) -> Option<u32>
    ensures { result ≡ spec.definition row.now }
{
    match *row {
        Coupling::Call { .. } => None,
        Coupling::Shared { definition, .. }
        | Coupling::Parameter { definition, .. }
        | Coupling::Return { definition, .. } => Some(definition),
    }
}

// Whether a row is a call row, where `calls`, or else another one.
fn is_of(row: &Coupling, calls: bool) -> bool
    ensures { result ≡ spec.same calls (spec.is_call (Some row.now)) }
{
    if calls {
        definition(row).is_none()
    } else {
        definition(row).is_some()
    }
}

fn one_if(counts: bool) -> u32
    ensures value { result ≡ spec.one_if counts }
    ensures bound { result ≤ 1 }
{
    if counts { 1 } else { 0 }
}

// A verdict with one more row or group, by whether it has a mark and reasons.
fn one_more(verdict: Verdict, is_marked: bool, is_reasoned: bool) -> Verdict
    requires covered { verdict.covered < 2 ^ 32 - 1 }
    requires justified { verdict.justified < 2 ^ 32 - 1 }
    requires listed { verdict.listed < 2 ^ 32 - 1 }
    ensures { result ≡ spec.one_more verdict is_marked is_reasoned }
{
    Verdict {
        covered: verdict.covered + one_if(is_marked),
        justified: verdict.justified + one_if(!is_marked && is_reasoned),
        listed: verdict.listed + 1,
    }
}

const NONE: Verdict = Verdict {
    covered: 0,
    justified: 0,
    listed: 0,
};

// The verdict on the call rows, or on all others.
#[tactic(auto, using(crate::proofs::More::rows_more))]
fn rows_verdict(
    listing: &Listing,
    scores: &Scores,
    reasons: Option<&RowReasons>,
    calls: bool,
) -> Verdict
    ensures { result ≡ spec.rows_to listing.now scores.now.marks (option_copied reasons.entry) calls (length listing.now) }
{
    let mut verdict = NONE;
    for i in 0..listing.len() {
        if is_of(listing.row(i), calls) {
            verdict = one_more(verdict, mark(scores, i).is_some(), has_reason(reasons, i));
        }
    }
    verdict
}

// Whether a row of the group stands before the row of this number.
#[tactic(auto, using(crate::proofs::Found::seen_in))]
fn is_seen(group: Group, row: u32) -> bool
    ensures { Finds (λ i. nat_lt i row && inside group i) result }
{
    group.start < group.end && group.start < row
}

// Whether a row of the group has a mark.
fn has_mark(scores: &Scores, group: Group) -> bool
    ensures { Finds (λ i. inside group i && is_some (marks.mark scores.now.marks i)) result }
{
    for i in group.start..group.end {
        if mark(scores, i).is_some() {
            return true;
        }
    }
    false
}

// Whether a row of the group has no reason.
fn lacks_reason(reasons: Option<&RowReasons>, group: Group) -> bool
    ensures { Finds (λ i. inside group i && not (marks.has_reason (option_copied reasons.entry) i)) result }
{
    for i in group.start..group.end {
        if !has_reason(reasons, i) {
            return true;
        }
    }
    false
}

fn is_any(a: bool, b: bool, c: bool) -> bool
    ensures { result ≡ (a || (b || c)) }
{
    a || b || c
}

// Whether an earlier row has the definition.
fn occurs(listing: &Listing, row: u32, wanted: u32) -> bool
    requires { IsOrdered listing.now }
    ensures { result ≡ spec.occurs_to listing.now wanted row }
{
    let rows = rows_of(listing, wanted);
    let shared = is_seen(rows.shared, row);
    let parameter = is_seen(rows.parameter, row);
    let returned = is_seen(rows.returned, row);
    is_any(shared, parameter, returned)
}

// Whether some row has the definition and a mark.
fn is_marked(listing: &Listing, scores: &Scores, wanted: u32) -> bool
    requires { IsOrdered listing.now }
    ensures { result ≡ spec.marked_to listing.now scores.now.marks wanted (length listing.now) }
{
    let rows = rows_of(listing, wanted);
    let shared = has_mark(scores, rows.shared);
    let parameter = has_mark(scores, rows.parameter);
    let returned = has_mark(scores, rows.returned);
    is_any(shared, parameter, returned)
}

// Whether each row that has the definition has a reason.
fn is_reasoned(listing: &Listing, reasons: Option<&RowReasons>, wanted: u32) -> bool
    requires { IsOrdered listing.now }
    ensures { result ≡ spec.reasoned_to listing.now (option_copied reasons.entry) wanted (length listing.now) }
{
    let rows = rows_of(listing, wanted);
    let shared = lacks_reason(reasons, rows.shared);
    let parameter = lacks_reason(reasons, rows.parameter);
    let returned = lacks_reason(reasons, rows.returned);
    !is_any(shared, parameter, returned)
}

// The definition of a row, if no earlier row has it.
fn new_definition(listing: &Listing, row: u32) -> Option<u32>
    requires number { row < length listing.now }
    requires ordered { IsOrdered listing.now }
    ensures { result ≡ spec.new_definition listing.now row }
{
    match definition(listing.row(row)) {
        Some(definition) if !occurs(listing, row, definition) => Some(definition),
        _ => None,
    }
}

// The verdict on the definitions.
#[tactic(auto, using(crate::proofs::More::defs_more))]
fn defs_verdict(listing: &Listing, scores: &Scores, reasons: Option<&RowReasons>) -> Verdict
    requires { IsOrdered listing.now }
    ensures { result ≡ spec.defs_to listing.now scores.now.marks (option_copied reasons.entry) (length listing.now) }
{
    let mut verdict = NONE;
    for i in 0..listing.len() {
        if let Some(definition) = new_definition(listing, i) {
            let marked = is_marked(listing, scores, definition);
            let reasoned = is_reasoned(listing, reasons, definition);
            verdict = one_more(verdict, marked, reasoned);
        }
    }
    verdict
}
