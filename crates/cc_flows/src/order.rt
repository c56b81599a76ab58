// An order in which to visit points.
use cc_base::{List, Memory};
use std::alloc::Global;

// A point on the way, and how many of the points that come next have been gone to.
#[derive(Clone, Copy)]
struct Step {
    point: u32,
    done: usize,
}

// The point that comes next, where there is a further one.
fn further(next: &[List<u32>], step: Step) -> Option<u32> {
    let row = next.get(step.point as usize)?;
    row.as_slice().get(step.done).copied()
}

// Marks a point. Tells whether it was not marked before.
fn mark(seen: &mut [bool], point: u32) -> bool {
    let at = point as usize;
    if at < seen.len() && !seen[at] {
        seen[at] = true;
        return true;
    }
    false
}

// How many steps a walk takes at most: one to each point and one back, and one for each edge.
fn steps_of(next: &[List<u32>]) -> usize {
    let mut steps: usize = 1;
    for row in next {
        steps = steps.saturating_add(row.as_slice().len()).saturating_add(2);
    }
    steps
}

// The points that a walk from the root comes to, each where the walk leaves it for the last time.
fn left_by_walk(alloc: Global, next: &[List<u32>], root: u32) -> Result<Vec<u32>, Memory> {
    let mut seen = vec![in alloc; false; next.len()]?;
    let mut left = Vec::new(alloc);
    let mut way = Vec::new(alloc);
    mark(&mut seen, root);
    way.push(Step {
        point: root,
        done: 0,
    })?;
    for _step in 0..steps_of(next) {
        let Some(step) = way.pop() else {
            break;
        };
        match further(next, step) {
            Some(to) => {
                way.push(Step {
                    point: step.point,
                    done: step.done.saturating_add(1),
                })?;
                if mark(&mut seen, to) {
                    way.push(Step { point: to, done: 0 })?;
                }
            }
            None => left.push(step.point)?,
        }
    }
    Ok(left)
}

/// Points that a path from the root leads to, a point mostly before those that come after it: visited in this order, few
/// points are visited again. No clause speaks of it.
pub fn order_of(alloc: Global, next: &[List<u32>], root: u32) -> Result<Vec<u32>, Memory> {
    let mut order = left_by_walk(alloc, next, root)?;
    order.reverse();
    Ok(order)
}
