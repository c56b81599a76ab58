// Accesses and items that are known by their numbers.
ghost use Rattle.std.specs.Prelude.{◌≡◌, map, IfOk, IfSome, OnOk};
ghost use Rattle.cc_listing_calls.specs.Numbered as spec;

use cc_base::Memory;
use cc_listed::{Access, Formal};
use std::alloc::{AllocError, Global};

// A number of 32 bits.
fn small(i: usize) -> Option<u32>
    ensures { IfSome result (λ n. n ≡ i) }
{
    if i < 4294967296 { Some(i as u32) } else { None }
}

/// The accesses, each with its number among them in the place of its node.
pub fn numbered(alloc: Global, accesses: &[Access]) -> Result<Vec<Access>, Memory>
    ensures { IfOk result (λ out. spec.AreNumbered accesses.now out.items) }
{
    let mut out = Vec::new(alloc);
    for (i, access) in accesses.iter().enumerate() {
        let Some(number) = small(i) else {
            return Err(Memory);
        };
        out.push(Access {
            point: access.point,
            slot: access.slot,
            occurrence: number,
        })?;
    }
    Ok(out)
}

/// The entries of functions as accesses to their formals.
pub fn entries(alloc: Global, formals: &[Formal]) -> Result<Vec<Access>, AllocError>
    ensures { IfOk result (λ out. out.items ≡ map spec.entry_of formals.now) }
{
    formals
        .iter()
        .map(|formal| Access {
            point: formal.entry,
            slot: formal.slot,
            occurrence: formal.callee,
        })
        .collect(alloc)
}

// Adds an item with its number, if there is one.
fn put_item(out: &mut Vec<(u32, u32)>, number: u32, item: Option<u32>) -> Result<(), Memory>
    ensures { OnOk result (out.new.items ≡ spec.put_item number item out.old.items) }
{
    if let Some(item) = item {
        out.push((item, number))?;
    }
    Ok(())
}

/// The items that are there, each with its number.
pub fn numbered_items(alloc: Global, items: &[Option<u32>]) -> Result<Vec<(u32, u32)>, Memory>
    ensures { IfOk result (λ out. spec.AreItems items.now out.items) }
{
    let mut out = Vec::new(alloc);
    for (i, item) in items.iter().enumerate() {
        let Some(number) = small(i) else {
            return Err(Memory);
        };
        put_item(&mut out, number, *item)?;
    }
    Ok(out)
}
