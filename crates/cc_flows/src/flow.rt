// Which definitions reach which reads.
ghost use Rattle.std.specs.Prelude.{◌≡◌, ◌+◌, ◌<◌, ◌≤◌, ℕ, Contains, IfOk, OnOk, Err, length, slice_get};
ghost use Rattle.cc_rows.specs.Limits.{HasMore};
ghost use Rattle.cc_rows.specs.declared.stop.Stop.TheVariants.{TooMany};
ghost use Rattle.cc_flows.specs.Sweeping.{StaysWithin};
ghost use Rattle.cc_rows.specs.Gains.{Gains, Or};
ghost use Rattle.cc_flows.specs.Flows.{Reaches, IsOne, IsAny, IsRead, IsGathered, AreReached, found_of, found_cmp};

use crate::mask::{Touch, block_at, clears, masks, points};
use crate::sweeping::sweep;
use cc_base::{List, Memory};
use cc_blocks::Block;
use cc_rows::{Stop, add_row};
use std::alloc::Global;

/// A definition reaches a reader. They are ordered by these numbers from left to right.
#[derive(Clone, Copy, PartialEq, Eq, PartialOrd, Ord)]
pub struct Found {
    /// The definition's node.
    pub definition: u32,
    /// The read's node.
    pub reader: u32,
    /// What the definition is of.
    pub object: u32,
}

// What is found where a definition reaches a reader.
fn found_of(definition: Touch, reader: u32) -> Found
    ensures { result ≡ found_of definition reader }
{
    Found {
        definition: definition.node,
        reader,
        object: definition.object,
    }
}

fn definition_at(definitions: &[Touch], i: usize) -> Option<Touch>
    ensures { result ≡ slice_get definitions.now i }
{
    definitions.get(i).copied()
}

// Adds what is found by a number of the set.
fn gather_one(
    found: &mut Vec<Found>,
    most: usize,
    definitions: &[Touch],
    reader: u32,
    bits: &Block,
    i: usize,
) -> Result<(), Stop>
    requires { i < 512 }
    ensures found { OnOk result (Gains found.old.items found.new.items
        (IsOne definitions.now bits.now reader i)) }
    ensures many { result ≡ Err TooMany → HasMore found_cmp (Contains found.old.items) most }
{
    if !bits.has(i as u32) {
        return Ok(());
    }
    match definition_at(definitions, i) {
        Some(definition) => add_row(found, found_of(definition, reader), most),
        None => Ok(()),
    }
}

// Adds what is found by each number of the set.
fn gather(
    found: &mut Vec<Found>,
    most: usize,
    definitions: &[Touch],
    reader: u32,
    bits: &Block,
) -> Result<(), Stop>
    ensures found { OnOk result (Gains found.old.items found.new.items
        (IsAny definitions.now bits.now reader)) }
    ensures many { result ≡ Err TooMany → HasMore found_cmp
        (Or found.old.items (IsAny definitions.now bits.now reader)) most }
{
    if bits.is_empty() {
        return Ok(());
    }
    for i in 0..512 {
        gather_one(found, most, definitions, reader, bits, i)?;
    }
    Ok(())
}

// Adds what a read finds.
fn gather_read(
    found: &mut Vec<Found>,
    most: usize,
    definitions: &[Touch],
    reach: &[Block],
    masks: &[Block],
    read: Touch,
) -> Result<(), Stop>
    ensures found { OnOk result (Gains found.old.items found.new.items
        (IsRead definitions.now reach.now masks.now read)) }
    ensures many { result ≡ Err TooMany → HasMore found_cmp
        (Or found.old.items (IsRead definitions.now reach.now masks.now read)) most }
{
    let mask = block_at(masks, read.slot as usize);
    if mask.is_empty() {
        return Ok(());
    }
    let here = block_at(reach, read.point as usize);
    let rest = here.minus(&mask);
    gather(found, most, definitions, read.node, &here.minus(&rest))
}

// Adds what the reads find.
fn gather_all(
    found: &mut Vec<Found>,
    most: usize,
    definitions: &[Touch],
    reach: &[Block],
    masks: &[Block],
    reads: &[Touch],
) -> Result<(), Stop>
    ensures found { OnOk result (Gains found.old.items found.new.items
        (IsGathered definitions.now reads.now reach.now masks.now)) }
    ensures many { result ≡ Err TooMany → HasMore found_cmp
        (Or found.old.items (IsGathered definitions.now reads.now reach.now masks.now)) most }
{
    for read in reads {
        gather_read(found, most, definitions, reach, masks, *read)?;
    }
    Ok(())
}

/// The steps from point to point, and what to do at them.
#[derive(Clone, Copy)]
pub struct Ways<'a> {
    /// For each point the points that come next.
    pub next: &'a [List<u32>],
    /// An order in which to visit points, which may be any.
    pub order: &'a [u32],
    /// For each point the slots that it wipes.
    pub wipes: &'a [List<u32>],
}

// Which of at most 512 definitions reach each point.
fn reach_of(
    alloc: Global,
    ways: Ways,
    masks: &[Block],
    definitions: &[Touch],
) -> Result<Vec<Block>, Memory>
    requires next { StaysWithin ways.next.now }
    requires wipes { length ways.wipes.now ≡ length ways.next.now }
    requires count { length definitions.now ≤ 512 }
    requires definitions { (d : Touch) → Contains definitions.now d
        → d.point < length ways.next.now }
    ensures { IfOk result (λ reach. AreReached ways.entry.next.now ways.entry.wipes.now masks.now definitions.now reach.items) }
{
    let clears = clears(alloc, ways.wipes, masks)?;
    let points = points(alloc, definitions)?;
    sweep(
        alloc,
        ways.next,
        ways.order,
        clears.as_slice(),
        points.as_slice(),
    )
}

// Adds what is found by at most 512 definitions.
fn batch(
    alloc: Global,
    found: &mut Vec<Found>,
    most: usize,
    ways: Ways,
    reads: &[Touch],
    slots: usize,
    definitions: &[Touch],
) -> Result<(), Stop>
    requires next { StaysWithin ways.next.now }
    requires wipes { length ways.wipes.now ≡ length ways.next.now }
    requires count { length definitions.now ≤ 512 }
    requires definitions { (d : Touch) → Contains definitions.now d
        → (d.slot < slots) × (d.point < length ways.next.now) }
    ensures found { OnOk result (Gains found.old.items found.new.items
        (Reaches ways.entry.next.now ways.entry.wipes.now reads.now definitions.now)) }
    ensures many { result ≡ Err TooMany → HasMore found_cmp (Or found.old.items
        (Reaches ways.entry.next.now ways.entry.wipes.now reads.now definitions.now)) most }
{
    let masks = masks(alloc, slots, definitions)?;
    let reach = reach_of(alloc, ways, masks.as_slice(), definitions)?;
    gather_all(
        found,
        most,
        definitions,
        reach.as_slice(),
        masks.as_slice(),
        reads,
    )
}

// The end of a batch.
fn end_of(first: usize, count: usize) -> usize
    requires { first < count }
    ensures more { first < result }
    ensures within { result ≤ count }
    ensures few { result ≤ first + 512 }
{
    if count - first < 512 {
        count
    } else {
        first + 512
    }
}

/// Adds what is found where a clear stretch leads from one of the definitions to one of the reads of its slot; so many
/// different ones in all are not too many.
pub fn flows(
    alloc: Global,
    found: &mut Vec<Found>,
    most: usize,
    ways: Ways,
    reads: &[Touch],
    slots: usize,
    definitions: &[Touch],
) -> Result<(), Stop>
    requires next { StaysWithin ways.next.now }
    requires wipes { length ways.wipes.now ≡ length ways.next.now }
    requires definitions { (d : Touch) → Contains definitions.now d
        → (d.slot < slots) × (d.point < length ways.next.now) }
    ensures found { OnOk result (Gains found.old.items found.new.items
        (Reaches ways.entry.next.now ways.entry.wipes.now reads.now definitions.now)) }
    ensures many { result ≡ Err TooMany → HasMore found_cmp (Or found.old.items
        (Reaches ways.entry.next.now ways.entry.wipes.now reads.now definitions.now)) most }
{
    let mut first = 0;
    while first < definitions.len() {
        let last = end_of(first, definitions.len());
        batch(
            alloc,
            found,
            most,
            ways,
            reads,
            slots,
            &definitions[first..last],
        )?;
        first = last;
    }
    Ok(())
}
