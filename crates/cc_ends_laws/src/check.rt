// Whether ranks fall along the ways.
ghost use Rattle.std.specs.Prelude.{◌≡◌, ℕ, ◌<◌, Some, true, slice_get};
ghost use Rattle.cc_acts.specs.declared.acts.Node.{Node};
ghost use Rattle.cc_ends_laws.specs.Ranks as spec;
ghost use Rattle.cc_ends_laws.specs.Ranks.{AllCases, AllWays, AreRanked, LeadsDown, rank};

use crate::ways::{Ways, ways_of};
use cc_acts::{Act, Acts, Case, Node};

/// The rank of a point; one without any has 0.
pub(crate) fn rank_of(ranks: &[u32], p: usize) -> u32
    ensures { result ≡ rank ranks.now p }
{
    match ranks.get(p) {
        Some(r) => *r,
        None => 0,
    }
}

// Whether the point's rank is below the limit.
fn is_below(ranks: &[u32], limit: u32, p: u32) -> bool
    ensures { result ≡ true → rank ranks.now p < limit }
{
    rank_of(ranks, p as usize) < limit
}

// Whether all labels lead to points of ranks below the limit.
fn cases_are_below(ranks: &[u32], limit: u32, cases: &[Case]) -> bool
    ensures { result ≡ true → AllCases (λ q. rank ranks.now q < limit) cases.now }
{
    for case in cases {
        if !is_below(ranks, limit, case.point) {
            return false;
        }
    }
    true
}

// Whether all these ways lead to points of ranks below the limit.
fn ways_are_below(acts: &Acts, ranks: &[u32], limit: u32, ways: Ways) -> bool
    ensures { result ≡ true → AllWays (λ q. rank ranks.now q < limit) acts.now.cases ways }
{
    match ways {
        Ways::Nowhere => true,
        Ways::One(next) => is_below(ranks, limit, next),
        Ways::Two(one, other) => is_below(ranks, limit, one) && is_below(ranks, limit, other),
        Ways::Cases { from, count, other } => {
            is_below(ranks, limit, other)
                && cases_are_below(ranks, limit, acts.cases.part(from as usize, count as usize))
        }
    }
}

// Whether the act leads to points of ranks below the limit.
fn leads_down(acts: &Acts, ranks: &[u32], limit: u32, act: Act) -> bool
    ensures { result ≡ true → LeadsDown ranks.now acts.now.cases limit act }
{
    limit > 0 && ways_are_below(acts, ranks, limit, ways_of(act))
}

fn limit_of(takes_turn: bool, steps: u32, rank: u32) -> u32
    ensures { result ≡ spec.limit takes_turn steps rank }
{
    if takes_turn { steps } else { rank }
}

// Whether what stands at the point leads down, where the point has a rank below the number of steps.
fn node_leads_down(acts: &Acts, ranks: &[u32], steps: u32, p: usize, node: Node) -> bool
    ensures { result ≡ true → rank ranks.now p < steps → LeadsDown ranks.now acts.now.cases (spec.limit node.takes_turn steps (rank ranks.now p)) node.act }
{
    let rank = rank_of(ranks, p);
    rank >= steps
        || leads_down(
            acts,
            ranks,
            limit_of(node.takes_turn, steps, rank),
            node.act,
        )
}

fn points_lead_down(acts: &Acts, ranks: &[u32], steps: u32) -> bool
    ensures { result ≡ true → (p : ℕ) (n : Node) → slice_get acts.now.nodes p ≡ Some n → rank ranks.now p < steps → LeadsDown ranks.now acts.now.cases (spec.limit n.takes_turn steps (rank ranks.now p)) n.act }
{
    for p in 0..acts.nodes.len() {
        if let Some(node) = acts.nodes.get(p) {
            if !node_leads_down(acts, ranks, steps, p, node) {
                return false;
            }
        }
    }
    true
}

// Whether an entry has the rank 0.
fn is_lowest(ranks: &[u32], entry: Option<u32>) -> bool
    ensures { result ≡ true → (e : ℕ) → entry ≡ Some e → rank ranks.now e ≡ 0 }
{
    match entry {
        None => true,
        Some(point) => rank_of(ranks, point as usize) == 0,
    }
}

fn entries_are_lowest(acts: &Acts, ranks: &[u32]) -> bool
    ensures { result ≡ true → (f e : ℕ) → slice_get acts.now.entries f ≡ Some (Some e) → rank ranks.now e ≡ 0 }
{
    for f in 0..acts.entries.len() {
        if let Some(entry) = acts.entries.get(f) {
            if !is_lowest(ranks, entry) {
                return false;
            }
        }
    }
    true
}

/// Whether the acts have these ranks, by which a run takes at most so many steps for each turn.
pub(crate) fn are_ranked(acts: &Acts, ranks: &[u32], steps: u32) -> bool
    ensures { result ≡ true → AreRanked acts.now steps ranks.now }
{
    steps > 0 && entries_are_lowest(acts, ranks) && points_lead_down(acts, ranks, steps)
}
