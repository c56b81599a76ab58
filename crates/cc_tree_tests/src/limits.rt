// The depths are counted by hand, by docs/grammar.md.
use crate::trees::{file, pointer_of, size_expr};
use cc_base::Spot;
use cc_tree::{Expr, External, Unit};
use cc_tree_limits::{declarator_fits, expr_fits, specs_fit, type_fits};
use std::test::Fail;

// Of `sizeof (int)`: it is 1 deep, and `int` 0.
fn size_fits(size: &Expr<Spot>) -> bool {
    match size {
        Expr::SizeType(_, name) => {
            expr_fits(size, 1) && !expr_fits(size, 0) && type_fits(name.get(), 0)
        }
        _ => false,
    }
}

// Of `struct { int *m; }`: it is 3 deep, and `*m` 2.
fn parts_fit(file: &Unit) -> bool {
    match file.externals.as_slice() {
        [_, External::Function(f)] => {
            let specs = f.specs.as_slice();
            specs_fit(specs, 3)
                && !specs_fit(specs, 2)
                && pointer_of(f).is_some_and(|d| declarator_fits(d, 2) && !declarator_fits(d, 1))
                && size_expr(f).is_some_and(size_fits)
        }
        _ => false,
    }
}

#[test]
fn depths(rt: HostRuntime) -> Result<(), Fail> {
    let file = file(rt.alloc())?;
    assert!(rt; parts_fit(file.get()));
    Ok(())
}
