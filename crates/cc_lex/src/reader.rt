// Cuts a text into tokens.
ghost use Rattle.std.specs.Prelude.{◌≡◌, ◌≤◌, ◌<◌, ◌+◌, ◌-◌, ◌^◌, ◌++◌, [], true, length, take, drop, IfOk, IfErr, OnOk, MatchOption};
ghost use Rattle.cc_lex.specs.Cut.{Cut, IsRefused};
ghost use Rattle.cc_lex.specs.Faults.{IsClean};
ghost use Rattle.cc_lex.specs.Pieces as pieces;
ghost use Rattle.cc_lex.specs.Reading as spec;
ghost use Rattle.cc_lex.specs.Reading.{IsAll, HasStopped, IsFirstAnywhere, IsMeant, added, pair_of};

use crate::byte::{back, front, is_blank};
use crate::meaning::meaning;
use crate::spot::spot_after;
use crate::step::{Fault, Step, everywhere, read_step};
use crate::token::{LexFault, Token, TokenList};
use cc_base::{Memory, Spot};
use std::alloc::Global;

/// Whether only spaces and tabs stand on the line so far, behind these bytes.
fn starts_after(mut starts: bool, mut z: &[u8]) -> bool
    ensures { result ≡ pieces.starts_after starts z.entry.now }
{
    while let [b, rest @ ..] = z {
        starts = *b == b'\n' || (starts && is_blank(*b));
        z = rest;
    }
    starts
}

/// The first splice or trigraph.
fn first_anywhere(bytes: &[u8]) -> Option<Fault>
    ensures { MatchOption result (IsClean bytes.now) (λ f. IsFirstAnywhere bytes.now (pair_of f)) }
{
    for at in 0..bytes.len() {
        match everywhere(back(bytes, at)) {
            None => {}
            Some(rule) => return Some(Fault { at, rule }),
        }
    }
    None
}

fn len_of(step: Step) -> usize
    ensures { result ≡ spec.len_of step }
{
    match step {
        Step::White(len) | Step::Comment(len) | Step::Line(len) | Step::Token(len) => len,
    }
}

/// Adds the token of these bytes, if the step is one.
fn add(
    alloc: Global,
    tokens: &mut TokenList,
    step: Step,
    w: &[u8],
    spot: Spot,
) -> Result<(), Memory>
    requires small { length w.now < 2 ^ 63 }
    requires meant { IsMeant step w.now }
    ensures { OnOk result (tokens.new ≡ tokens.old ++ added step w.now spot) }
{
    match step {
        Step::Token(_) => {
            let kind = meaning(alloc, w)?;
            tokens.push(Token { kind, spot })
        }
        _ => Ok(()),
    }
}

/// The tokens, or the first fault that stops the reading.
fn read(alloc: Global, bytes: &[u8]) -> Result<TokenList, LexFault>
    requires { length bytes.now ≤ 1048576 }
    ensures all { IfOk result (IsAll bytes.now) }
    ensures stopped { IfErr result (HasStopped bytes.now) }
{
    let mut z = bytes;
    let mut starts = true;
    let mut spot = Spot::start();
    let mut tokens = TokenList::new(alloc);
    while z.len() != 0 {
        let step = match read_step(starts, z) {
            Ok(step) => step,
            Err(fault) => {
                return Err(LexFault::At {
                    offset: (bytes.len() - z.len() + fault.at) as u64,
                    rule: fault.rule,
                });
            }
        };
        let piece = front(z, len_of(step));
        match add(alloc, &mut tokens, step, piece, spot) {
            Ok(added) => added,
            Err(_) => return Err(LexFault::Memory),
        }
        starts = starts_after(starts, piece);
        spot = spot_after(spot, piece);
        z = back(z, len_of(step));
    }
    Ok(tokens)
}

/// The lesser of two faults.
fn sooner(first: Fault, other: LexFault) -> LexFault
    ensures { result ≡ spec.sooner (pair_of first) other }
{
    match other {
        LexFault::Memory => LexFault::Memory,
        LexFault::At { offset, rule } => {
            let at = first.at as u64;
            if at < offset || (at == offset && first.rule <= rule) {
                LexFault::At {
                    offset: at,
                    rule: first.rule,
                }
            } else {
                LexFault::At { offset, rule }
            }
        }
    }
}

/// The least fault of a text in which a splice or a trigraph stands.
fn unclean(alloc: Global, bytes: &[u8], first: Fault) -> LexFault
    requires small { length bytes.now ≤ 1048576 }
    requires first { IsFirstAnywhere bytes.now (pair_of first) }
    ensures { IsRefused bytes.now result }
{
    match read(alloc, bytes) {
        Ok(_) => LexFault::At {
            offset: first.at as u64,
            rule: first.rule,
        },
        Err(fault) => sooner(first, fault),
    }
}

/// The tokens of the one cut of the bytes. Where there is none, the least offset that is faulty, and there the least
/// rule.
pub fn lex(alloc: Global, bytes: &[u8]) -> Result<TokenList, LexFault>
    requires { length bytes.now ≤ 1048576 }
    ensures cut { IfOk result (Cut bytes.now) }
    ensures refused { IfErr result (IsRefused bytes.now) }
{
    match first_anywhere(bytes) {
        None => read(alloc, bytes),
        Some(first) => Err(unclean(alloc, bytes, first)),
    }
}
