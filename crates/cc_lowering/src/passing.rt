// How values become arguments and results.
use cc_acts::Conversion;
use cc_arena::Node;
use cc_base::Memory;
use cc_layout::{conversion_to, pointee_at, result_of};
use cc_program::{Function, Program};
use cc_symbols::Slots;
use cc_types::Shape;
use std::alloc::Global;

/// How values become arguments and results (C17 6.5.2.2p7, 6.8.6.4p3). Each list of parameters is gone through once for each
/// call, and once for each function.
#[derive(Drop)]
pub(crate) struct Passing {
    /// By node of an argument, how it becomes one of its parameter's type.
    pub arguments: Slots<Option<Conversion>>,
    /// By function, how what a `return` gives becomes its result.
    pub results: Slots<Conversion>,
}

// Notes how the arguments of a call of `f` become ones of the parameters' types.
fn note_arguments(
    program: &Program,
    arguments: &mut Slots<Option<Conversion>>,
    f: u32,
    list: &[u32],
) {
    let mut function = pointee_at(program, f).unwrap_or(Shape::Void(false));
    for argument in list {
        if let Shape::Takes(parameter, others) = function {
            let to = conversion_to(program.types().shape(parameter));
            arguments.put(*argument, Some(to));
            function = program.types().shape(others);
        }
    }
}

// How what is returned becomes the result of a function.
fn result_conversion(program: &Program, function: &Function) -> Conversion {
    let count = function.formals.as_slice().len();
    match result_of(program, program.types().shape(function.ty), count) {
        Some(result) => conversion_to(result),
        None => Conversion::Void,
    }
}

/// How values become arguments and results in a program.
pub(crate) fn passing_of(alloc: Global, program: &Program) -> Result<Passing, Memory> {
    let count = program.occurrences();
    let mut arguments = Slots::new(alloc);
    arguments.grow(count, None)?;
    for n in 0..count {
        if let Some(Node::Call(f, list)) = program.node(n) {
            note_arguments(program, &mut arguments, f, program.arena().part_list(list));
        }
    }
    let mut results = Slots::new(alloc);
    for function in program.functions.as_slice() {
        results.push(result_conversion(program, function))?;
    }
    Ok(Passing { arguments, results })
}
