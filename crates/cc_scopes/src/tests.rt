// Names in a file, a block and a block in that, with ample memory.
use super::*;
use cc_base::Memory;
use std::alloc::Global;

// Whether these are the declarations that `x`, `y` and `z` mean.
fn mean(scopes: &Scopes, x: Option<u32>, y: Option<u32>, z: Option<u32>) -> bool {
    scopes.find("x") == x && scopes.find("y") == y && scopes.find("z") == z
}

// Whether those of `x`, `y` and `z` with true are declared in this very block, and no others.
fn are_here(scopes: &Scopes, x: bool, y: bool, z: bool) -> bool {
    scopes.is_here("x") == x && scopes.is_here("y") == y && scopes.is_here("z") == z
}

// `int x, y; { long x, z; { } }`
fn blocks_hide_and_restore(alloc: Global) -> Result<bool, Memory> {
    let mut scopes = Scopes::new(alloc);
    scopes.declare("x", 0)?;
    scopes.declare("y", 1)?;
    scopes.enter()?;
    scopes.declare("x", 2)?;
    scopes.declare("z", 3)?;
    let inside = mean(&scopes, Some(2), Some(1), Some(3)) && are_here(&scopes, true, false, true);
    scopes.enter()?;
    let further = mean(&scopes, Some(2), Some(1), Some(3))
        && are_here(&scopes, false, false, false);
    scopes.leave();
    let again = mean(&scopes, Some(2), Some(1), Some(3)) && are_here(&scopes, true, false, true);
    scopes.leave();
    Ok(
        inside
            && further
            && again
            && mean(&scopes, Some(0), Some(1), None)
            && are_here(&scopes, true, true, false),
    )
}

// A name that is declared again in its own block, and outside all blocks.
fn later_hides_earlier(alloc: Global) -> Result<bool, Memory> {
    let mut scopes = Scopes::new(alloc);
    scopes.declare("x", 0)?;
    scopes.declare("x", 1)?;
    let twice = mean(&scopes, Some(1), None, None);
    scopes.leave();
    Ok(twice && mean(&scopes, None, None, None) && are_here(&scopes, false, false, false))
}

#[test]
fn scopes(rt: HostRuntime) {
    assert!(rt; blocks_hide_and_restore(rt.alloc()) == Ok(true));
    assert!(rt; later_hides_earlier(rt.alloc()) == Ok(true));
}
