// The numbered tree of a file.
ghost use Rattle.std.specs.Prelude.{◌≡◌, ◌≤◌, ◌<◌, ◌^◌, IfErr, IfSome, OnOk, length};
ghost use Rattle.cc_prep.specs.Faults.{NoneFalls, counts_of};
ghost use Rattle.cc_front.specs.Faults.{IsFileCaused, IsFileTold, IsNoExpansion};

use crate::fault::{Fault, FileFault};
use cc_base::Spot;
use cc_io::Shelf;
use cc_lex::{TokenList, banned, spot_of};
use cc_parse::{ParseFault, parse};
use cc_prep::expand;
use cc_tree::{FileTree, Unit};
use cc_tree_notes::{Counted, number_file};
use cc_tree_walks::file_nodes;
use std::alloc::Global;

/// All files together have fewer nodes than this.
const MOST_NODES: u32 = 1 << 30;

// The tokens of a file, none of which is a word that the profile doesn't have.
fn tokens_of<S: Shelf>(
    alloc: Global,
    shelf: &mut S,
    name: &str,
    bytes: &[u8],
) -> Result<TokenList, FileFault>
    requires { length bytes.now ≤ 1048576 }
    ensures keeps { S.files shelf.new ≡ S.files shelf.old }
    ensures none_falls { NoneFalls (counts_of (S.faults shelf.old) (S.misses shelf.old) (S.longs shelf.old))
        (counts_of (S.faults shelf.new) (S.misses shelf.new) (S.longs shelf.new)) }
    ensures caused { IfErr result (IsFileCaused (counts_of (S.faults shelf.old) (S.misses shelf.old) (S.longs shelf.old))
        (counts_of (S.faults shelf.new) (S.misses shelf.new) (S.longs shelf.new))) }
    ensures told { IfSome (S.files shelf.old) (λ held. IfErr result (IsFileTold held bytes.now)) }
{
    let tokens = match expand(alloc, shelf, name, bytes) {
        Ok(tokens) => tokens,
        Err(fault) => return Err(FileFault::Expansion(fault)),
    };
    match banned(&tokens) {
        None => Ok(tokens),
        Some((token, rule)) => Err(FileFault::At {
            spot: token_spot(bytes, &tokens, token),
            fault: Fault::Offence(rule),
        }),
    }
}

// Where the token of this number stands; behind the last one, one past the last byte.
fn token_spot(bytes: &[u8], tokens: &TokenList, token: u64) -> Spot
    requires { length bytes.now ≤ 1048576 }
{
    if token < tokens.len() {
        tokens.get(token).spot
    } else {
        spot_of(bytes, bytes.len() as u64)
    }
}

// Why the tokens have no tree.
fn syntactic(bytes: &[u8], tokens: &TokenList, fault: ParseFault) -> FileFault
    requires { length bytes.now ≤ 1048576 }
    ensures { IsNoExpansion result }
{
    match fault {
        ParseFault::Syntax { token } => FileFault::At {
            spot: token_spot(bytes, tokens, token),
            fault: Fault::Syntax,
        },
        ParseFault::TooDeep { token } => FileFault::At {
            spot: token_spot(bytes, tokens, token),
            fault: Fault::TooDeep,
        },
        ParseFault::Memory => FileFault::Memory,
    }
}

// The tree with its nodes numbered from `next` on, which is then the number after the last.
fn numbered(alloc: Global, unit: &Unit, next: &mut u32) -> Result<FileTree<Counted>, FileFault>
    requires { next.old < 2 ^ 30 }
    ensures next { OnOk result (next.new < 2 ^ 30) }
    ensures none { IfErr result IsNoExpansion }
{
    if file_nodes(unit) >= (MOST_NODES - *next) as u64 {
        return Err(FileFault::TooManyNodes);
    }
    match number_file(alloc, unit, next) {
        Ok(tree) => Ok(tree),
        Err(_) => Err(FileFault::Memory),
    }
}

/// The tree of a file, its nodes numbered from `next` on, which is then the number after the last.
pub(crate) fn tree_of<S: Shelf>(
    alloc: Global,
    shelf: &mut S,
    name: &str,
    bytes: &[u8],
    next: &mut u32,
) -> Result<FileTree<Counted>, FileFault>
    requires small { length bytes.now ≤ 1048576 }
    requires next { next.old < 2 ^ 30 }
    ensures next { OnOk result (next.new < 2 ^ 30) }
    ensures keeps { S.files shelf.new ≡ S.files shelf.old }
    ensures none_falls { NoneFalls (counts_of (S.faults shelf.old) (S.misses shelf.old) (S.longs shelf.old))
        (counts_of (S.faults shelf.new) (S.misses shelf.new) (S.longs shelf.new)) }
    ensures caused { IfErr result (IsFileCaused (counts_of (S.faults shelf.old) (S.misses shelf.old) (S.longs shelf.old))
        (counts_of (S.faults shelf.new) (S.misses shelf.new) (S.longs shelf.new))) }
    ensures told { IfSome (S.files shelf.old) (λ held. IfErr result (IsFileTold held bytes.now)) }
{
    let tokens = tokens_of(alloc, shelf, name, bytes)?;
    match parse(alloc, &tokens) {
        Ok(unit) => numbered(alloc, &unit, next),
        Err(fault) => Err(syntactic(bytes, &tokens, fault)),
    }
}
