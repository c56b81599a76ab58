// Ranks for the points of acts: a walk along the ways from the entries. No clause speaks of them; what they are is looked at
// afterwards (`check`).
use crate::check::rank_of;
use crate::ways::{Ways, ways_of};
use cc_acts::Acts;
use cc_base::Memory;
use std::alloc::Global;

/// A point that the walk has not left has this rank, which is above all others.
pub(crate) const UNRANKED: u32 = u32::MAX;

// A point on the way, and how many of its ways have been gone.
#[derive(Clone, Copy)]
struct Step {
    point: u32,
    done: u32,
}

#[derive(Drop)]
struct Walk {
    ranks: Vec<u32>,
    seen: Vec<bool>,
    way: Vec<Step>,
}

fn takes_turn(acts: &Acts, p: u32) -> bool {
    match acts.nodes.get(p as usize) {
        Some(node) => node.takes_turn,
        None => true,
    }
}

fn ways_at(acts: &Acts, p: u32) -> Ways {
    match acts.nodes.get(p as usize) {
        Some(node) => ways_of(node.act),
        None => Ways::Nowhere,
    }
}

// The label of this number.
fn case_at(acts: &Acts, k: usize) -> Option<u32> {
    match acts.cases.get(k) {
        Some(case) => Some(case.point),
        None => None,
    }
}

// Where way number k leads, if there is one.
fn way_at(acts: &Acts, ways: Ways, k: u32) -> Option<u32> {
    match ways {
        Ways::Nowhere => None,
        Ways::One(next) if k == 0 => Some(next),
        Ways::Two(one, _) if k == 0 => Some(one),
        Ways::Two(_, other) if k == 1 => Some(other),
        Ways::Cases { other, .. } if k == 0 => Some(other),
        Ways::Cases { from, count, .. } if k <= count => {
            case_at(acts, (from as usize).saturating_add(k as usize - 1))
        }
        _ => None,
    }
}

fn set(ranks: &mut [u32], p: u32, rank: u32) {
    let at = p as usize;
    if at < ranks.len() {
        ranks[at] = rank;
    }
}

// Marks a point. Tells whether it was not marked before.
fn mark(seen: &mut [bool], p: u32) -> bool {
    let at = p as usize;
    if at < seen.len() && !seen[at] {
        seen[at] = true;
        return true;
    }
    false
}

// One more than the greatest rank of the points that come next.
fn rank_over(acts: &Acts, ranks: &[u32], p: u32) -> u32 {
    let ways = ways_at(acts, p);
    let mut most: u32 = 0;
    for k in 0..u32::MAX {
        match way_at(acts, ways, k) {
            Some(next) => most = most.max(rank_of(ranks, next as usize)),
            None => break,
        }
    }
    most.saturating_add(1)
}

// Comes to a point. One that takes a turn has the rank 0, whatever comes next.
fn come(acts: &Acts, walk: &mut Walk, p: u32) -> Result<(), Memory> {
    if mark(&mut walk.seen, p) {
        if takes_turn(acts, p) {
            set(&mut walk.ranks, p, 0);
        }
        walk.way.push(Step { point: p, done: 0 })?;
    }
    Ok(())
}

// Leaves a point for the last time.
fn leave(acts: &Acts, ranks: &mut [u32], p: u32) {
    if !takes_turn(acts, p) {
        let rank = rank_over(acts, ranks, p);
        set(ranks, p, rank);
    }
}

// Walks along all ways from where it has come to, until it has left every point.
fn walk_on(acts: &Acts, walk: &mut Walk) -> Result<(), Memory> {
    for _step in 0..u64::MAX {
        let Some(step) = walk.way.pop() else {
            break;
        };
        match way_at(acts, ways_at(acts, step.point), step.done) {
            Some(next) => {
                walk.way.push(Step {
                    point: step.point,
                    done: step.done.saturating_add(1),
                })?;
                come(acts, walk, next)?;
            }
            None => leave(acts, &mut walk.ranks, step.point),
        }
    }
    Ok(())
}

/// A rank for each point: 0 where a turn is taken, else one more than the greatest of the points that come next. A point that
/// no way from an entry leads to has none, nor has one from which a circle without a turn is come to.
pub(crate) fn ranks_of(alloc: Global, acts: &Acts) -> Result<Vec<u32>, Memory> {
    let mut walk = Walk {
        ranks: vec![in alloc; UNRANKED; acts.nodes.len()]?,
        seen: vec![in alloc; false; acts.nodes.len()]?,
        way: Vec::new(alloc),
    };
    for entry in acts.entries.as_slice() {
        if let Some(point) = *entry {
            come(acts, &mut walk, point)?;
            walk_on(acts, &mut walk)?;
        }
    }
    Ok(walk.ranks)
}

/// One more than the greatest rank.
pub(crate) fn steps_of(ranks: &[u32]) -> u32 {
    let mut most: u32 = 0;
    for rank in ranks {
        if *rank != UNRANKED {
            most = most.max(*rank);
        }
    }
    most.saturating_add(1)
}
