// From which named reads a path leads on to the call.
ghost use Rattle.std.specs.Prelude.{◌≡◌, ◌<◌, ◌↔◌, ℕ, map, filter, filter_map, Contains, IfOk, OnOk, length, slice_get};
ghost use Rattle.cc_rows.specs.Gains.{Gains};
ghost use Rattle.cc_flows.specs.Sweeping.{StaysWithin};
ghost use Rattle.cc_flows.specs.Flows.{Reaches};
ghost use Rattle.cc_listing_calls.specs.Onward as spec;

use crate::number::numbered_items;
use cc_base::Memory;
use cc_flows::{Found, Touch, Ways, flows};
use cc_lanes::{Roads, table_of};
use cc_listed::{Access, Argument};
use std::alloc::{AllocError, Global};

fn access_at(accesses: &[Access], n: u32) -> Option<Access>
    ensures { result ≡ slice_get accesses.now n }
{
    accesses.get(n as usize).copied()
}

/// The argument of this number.
pub fn argument_at(arguments: &[Argument], i: u32) -> Option<Argument>
    ensures { result ≡ slice_get arguments.now i }
{
    arguments.get(i as usize).copied()
}

// The point of an access, if it is one of so many points.
fn point_in(points: usize, access: Option<Access>) -> Option<u32>
    ensures { result ≡ spec.point_in points access }
{
    match access {
        Some(access) => {
            if (access.point as usize) < points {
                Some(access.point)
            } else {
                None
            }
        }
        None => None,
    }
}

// The point of the read that an argument names, if it is one of so many points.
fn start_of(named: &[Access], points: usize, argument: Argument) -> Option<u32>
    ensures { result ≡ spec.start_of named.now points argument }
{
    match argument.named {
        Some(number) => point_in(points, access_at(named, number)),
        None => None,
    }
}

fn starts_of(
    alloc: Global,
    named: &[Access],
    points: usize,
    arguments: &[Argument],
) -> Result<Vec<Option<u32>>, AllocError>
    ensures { IfOk result (λ out. out.items ≡ map (spec.start_of named.now points) arguments.now) }
{
    arguments
        .iter()
        .map(|argument| start_of(named, points, *argument))
        .collect(alloc)
}

fn ends_of(alloc: Global, arguments: &[Argument]) -> Result<Vec<Option<u32>>, AllocError>
    ensures { IfOk result (λ out. out.items ≡ map spec.end_of arguments.now) }
{
    arguments
        .iter()
        .map(|argument| Some(argument.at))
        .collect(alloc)
}

fn touched(alloc: Global, pairs: &[(u32, u32)]) -> Result<Vec<Touch>, AllocError>
    ensures { IfOk result (λ out. out.items ≡ map spec.touch_of pairs.now) }
{
    pairs
        .iter()
        .map(|pair| Touch {
            point: pair.0,
            slot: pair.1,
            node: pair.1,
            object: 0,
        })
        .collect(alloc)
}

// The points that are there, each with its number.
fn touches_of(alloc: Global, points: &[Option<u32>]) -> Result<Vec<Touch>, Memory>
    ensures { IfOk result (λ out. spec.AreTouches points.now out.items) }
{
    let pairs = numbered_items(alloc, points)?;
    Ok(touched(alloc, pairs.as_slice())?)
}

// Adds what flows find, however much that is.
fn flow_all(
    alloc: Global,
    found: &mut Vec<Found>,
    ways: Ways,
    reads: &[Touch],
    slots: usize,
    definitions: &[Touch],
) -> Result<(), Memory>
    requires next { StaysWithin ways.next.now }
    requires wipes { length ways.wipes.now ≡ length ways.next.now }
    requires definitions { (d : Touch) → Contains definitions.now d
        → (d.slot < slots) × (d.point < length ways.next.now) }
    ensures { OnOk result (Gains found.old.items found.new.items
        (Reaches ways.entry.next.now ways.entry.wipes.now reads.now definitions.now)) }
{
    match flows(alloc, found, usize::MAX, ways, reads, slots, definitions) {
        Ok(()) => Ok(()),
        Err(_) => Err(Memory),
    }
}

// The numbers of the arguments from whose named reads a path leads on to the call.
fn leading(
    alloc: Global,
    roads: Roads,
    named: &[Access],
    arguments: &[Argument],
) -> Result<Vec<Found>, Memory>
    requires next { StaysWithin roads.next.now }
    ensures { IfOk result (λ found. spec.AreLeading roads.entry.next.now named.now arguments.now found.items) }
{
    let starts = starts_of(alloc, named, roads.next.len(), arguments)?;
    let begins = touches_of(alloc, starts.as_slice())?;
    let ends = ends_of(alloc, arguments)?;
    let stops = touches_of(alloc, ends.as_slice())?;
    let wipes = table_of(alloc, roads.next.len(), &[])?;
    let ways = Ways {
        next: roads.next,
        order: roads.order,
        wipes: wipes.as_slice(),
    };
    let mut found = Vec::new(alloc);
    flow_all(
        alloc,
        &mut found,
        ways,
        stops.as_slice(),
        arguments.len(),
        begins.as_slice(),
    )?;
    Ok(found)
}

fn is_plain(argument: Argument) -> bool
    ensures { result ≡ spec.is_plain argument }
{
    match argument.named {
        None => true,
        Some(_) => false,
    }
}

// Those of the arguments that name no read.
fn plain(alloc: Global, arguments: &[Argument]) -> Result<Vec<Argument>, AllocError>
    ensures { IfOk result (λ out. out.items ≡ filter spec.is_plain arguments.now) }
{
    arguments
        .iter()
        .filter(|argument| is_plain(**argument))
        .copied()
        .collect(alloc)
}

// The arguments of these numbers.
fn numbered_by(
    alloc: Global,
    arguments: &[Argument],
    found: &[Found],
) -> Result<Vec<Argument>, AllocError>
    ensures { IfOk result (λ out. out.items ≡ filter_map (spec.argument_of arguments.now) found.now) }
{
    found
        .iter()
        .filter_map(|found| argument_at(arguments, found.definition))
        .collect(alloc)
}

/// Those of the arguments that name no read, or from whose named read a path leads on to the call.
pub fn handing(
    alloc: Global,
    roads: Roads,
    named: &[Access],
    arguments: &[Argument],
) -> Result<Vec<Argument>, Memory>
    requires next { StaysWithin roads.next.now }
    ensures { IfOk result (λ out. spec.AreHanding roads.entry.next.now named.now arguments.now out.items) }
{
    let found = leading(alloc, roads, named, arguments)?;
    let mut out = plain(alloc, arguments)?;
    let more = numbered_by(alloc, arguments, found.as_slice())?;
    out.extend_from_slice(more.as_slice())?;
    Ok(out)
}
