// Names and places that tables print.
ghost use Rattle.std.specs.Prelude.{◌≡◌, IfOk, string_bytes};
ghost use Rattle.cc_tables.specs.Names as spec;

use cc_program::{FuncId, Program, Referent};
use std::alloc::{AllocError, Global};

/// The place of a node, `file:line:column`.
pub fn place_text(alloc: Global, program: &Program, node: u32) -> Result<String, AllocError>
    ensures { IfOk result (λ text. string_bytes text ≡ spec.place_text program.now node) }
{
    let at = program.place(node);
    let file = program.file_name(at.file);
    let line = at.line;
    let column = at.column;
    format!(in alloc; "{file}:{line}:{column}")
}

/// The name of a node's component.
pub fn component_name(program: &Program, node: u32) -> &str
    ensures { result.now ≡ spec.component_text program.now node }
{
    program.component_name(program.component_of(node))
}

/// The node at which a function is declared.
pub fn declarator(program: &Program, f: FuncId) -> u32
    ensures { result ≡ spec.declarator program.now f }
{
    match program.function(f) {
        Some(function) => function.declarator,
        None => 0,
    }
}

/// The name of a function.
pub fn function_name(program: &Program, f: FuncId) -> &str
    ensures { result.now ≡ spec.function_name program.now f }
{
    match program.function(f) {
        Some(function) => function.name.as_str(),
        None => "",
    }
}

/// The name of an object, by its declarator or string literal.
pub fn object_name(program: &Program, node: u32) -> &str
    ensures { result.now ≡ spec.object_name program.now node }
{
    match program.names(node) {
        Some(Referent::Variable(v)) => match program.variable(v) {
            Some(variable) => variable.name.as_str(),
            None => "<string>",
        },
        _ => "<string>",
    }
}
