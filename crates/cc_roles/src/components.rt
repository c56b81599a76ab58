// Whose component nodes and functions are of.
ghost use Rattle.std.specs.Prelude.{◌≡◌};
ghost use Rattle.cc_roles.specs.Components as spec;

use cc_program::{FuncId, Program};

/// The component of a node.
pub fn component(program: &Program, node: u32) -> u32
    ensures { result ≡ spec.component program.now node }
{
    program.component_of(node).0
}

// The node at which a function is declared.
fn declarator(program: &Program, f: FuncId) -> u32
    ensures { result ≡ spec.declarator program.now f }
{
    match program.function(f) {
        Some(function) => function.declarator,
        None => 0,
    }
}

/// The component of a function: that of its declarator.
pub fn home(program: &Program, f: FuncId) -> u32
    ensures { result ≡ spec.home program.now f }
{
    component(program, declarator(program, f))
}
