// The least offence of a stretch of nodes.
ghost use Rattle.std.specs.Prelude.{◌≡◌, ◌+◌, ◌<◌, ◌^◌, None, length, IfOk};
ghost use Rattle.cc_arena_rules.specs.Broken.{judged};
ghost use Rattle.cc_arena_rules.specs.Least as spec;

use crate::around::Around;
use crate::broken::{
    Judging, breaks_assignment, breaks_comma, breaks_jump, breaks_label, breaks_null, breaks_struct,
};
use crate::inherit::{around_at, surroundings};
use crate::look::nodes_in;
use crate::repeats::repeats;
use crate::variables::taken;
use cc_arena::{Arena, Placed};
use cc_base::Memory;
use cc_symbols::{Findings, Offence, Symbols, lesser, rule};
use std::alloc::Global;

// The least rule that is broken at the node `n`.
fn rule_at(judging: &Judging, n: u32, placed: Placed, around: Around) -> Option<u8>
    ensures { result ≡ spec.rule_at (judged judging.now) n placed around }
{
    let node = placed.node;
    if breaks_jump(node, around) {
        Some(rule::JUMP)
    } else if breaks_label(judging.arena, judging.found, node, placed.parent) {
        Some(rule::LABEL_PLACE)
    } else if breaks_assignment(judging, node, around) {
        Some(rule::ASSIGNMENT_PLACE)
    } else if breaks_comma(judging.found, node, around) {
        Some(rule::COMMA_PLACE)
    } else if breaks_null(judging.symbols, judging.found, node, n, around) {
        Some(rule::CAST)
    } else if breaks_struct(judging.symbols, judging.found, node, n, around) {
        Some(rule::STRUCT_VALUE)
    } else {
        None
    }
}

fn offence_of(placed: Placed, rule: Option<u8>) -> Option<Offence>
    ensures { result ≡ spec.offence_of placed rule }
{
    match rule {
        Some(rule) => Some(Offence {
            spot: placed.spot,
            rule,
        }),
        None => None,
    }
}

fn offence_at(judging: &Judging, n: u32, placed: Placed, own: Option<Around>) -> Option<Offence>
    ensures { result ≡ spec.offence_at (judged judging.now) n placed own }
{
    match own {
        Some(around) => offence_of(placed, rule_at(judging, n, placed, around)),
        None => None,
    }
}

// The lesser one of what was found and the offence at the node `n`.
#[tactic(auto, unfolding(crate::specs::Least::lesser_at))]
fn lesser_at(
    judging: &Judging,
    around: &[Around],
    n: u32,
    placed: Placed,
    found: Option<Offence>,
) -> Option<Offence>
    ensures { result ≡ spec.lesser_at (judged judging.now) around.now n placed found }
{
    let own = around_at(around, judging.start, n);
    lesser(found, offence_at(judging, n, placed, own))
}

fn least(judging: &Judging, nodes: &[Placed], around: &[Around]) -> Option<Offence>
    requires { judging.now.start + length nodes.now < 2 ^ 32 }
    ensures { result ≡ spec.least_from (judged judging.now) around.now nodes.now judging.now.start None }
{
    let mut least = None;
    let mut n = judging.start;
    for placed in nodes {
        least = lesser_at(judging, around, n, *placed, least);
        n += 1;
    }
    least
}

/// The least offence, by place and then by rule, of the rules C28, C29 (a label in a block that isn't a switch's own), C33,
/// C34, C49 (`(void *)0` where no null constant is meant) and C52 in the nodes from `start` to before `end`, which are those
/// of one file. `symbols` and `found` are as they are behind the file's walk. Fails where memory or numbers are wanting.
pub fn offence_in(
    alloc: Global,
    arena: &Arena,
    symbols: &Symbols,
    found: &Findings,
    start: u32,
    end: u32,
) -> Result<Option<Offence>, Memory>
    ensures { IfOk result (λ least. least ≡ spec.least_offence arena.now symbols.now found.now start end) }
{
    let around = surroundings(alloc, arena, symbols, found, start, end)?;
    let taken = taken(alloc, arena, symbols, around.as_slice(), start, end)?;
    let repeats = repeats(alloc, arena, symbols, around.as_slice(), start, end)?;
    let judging = Judging {
        arena,
        symbols,
        found,
        taken: taken.as_slice(),
        repeats: repeats.as_slice(),
        start,
    };
    Ok(least(&judging, nodes_in(arena, start, end), around.as_slice()))
}
