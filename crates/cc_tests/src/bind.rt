// Tests with their calls tied to functions.
ghost use Rattle.std.specs.Prelude.{◌≡◌, ◌≤◌, All, IfErr, IfOk, length, map};
ghost use Rattle.cc_project.specs.WellMade.{IsWellMadeTest};
ghost use Rattle.cc_tests.specs.Bound as spec;
ghost use Rattle.cc_tests.specs.Rules.{Reports, test_fault, tests_fault};

use crate::call::first_fault;
use crate::entry::entry_named;
use crate::fault::TestFault;
use cc_base::{List, Memory, Text};
use cc_meaning::{NumberList, Test, TestCall, TestCallList, TestList, TextList};
use cc_program::{FuncId, Program};
use cc_project::{Project, RawCall, RawTest};
use std::alloc::Global;

fn copy(alloc: Global, text: &Text) -> Result<Text, Memory>
    ensures { IfOk result (λ copied. copied ≡ text.now) }
{
    Ok(Text::new(String::from_str(alloc, text.as_str())?))
}

fn texts(alloc: Global, items: &[Text]) -> Result<TextList, Memory>
    ensures { IfOk result (λ list. list ≡ items.now) }
{
    let mut list = List::new(alloc);
    for item in items {
        list.push(copy(alloc, item)?)?;
    }
    Ok(list)
}

fn numbers(alloc: Global, items: &[i64]) -> Result<NumberList, Memory>
    ensures { IfOk result (λ list. list ≡ items.now) }
{
    let mut list = List::new(alloc);
    for item in items {
        list.push(*item)?;
    }
    Ok(list)
}

// The entry that a call names; where there is none, the first function.
fn entry_of(program: &Program, name: &str) -> FuncId
    ensures { result ≡ spec.entry_of program.now name.now }
{
    entry_named(program, name).unwrap_or(FuncId(0))
}

fn bound_call(alloc: Global, program: &Program, call: &RawCall) -> Result<TestCall, Memory>
    ensures { IfOk result (λ bound. bound ≡ spec.bound_call program.now call.now) }
{
    let entry = entry_of(program, call.entry.as_str());
    let args = numbers(alloc, call.args.as_slice())?;
    Ok(TestCall { entry, args })
}

fn bound_calls(alloc: Global, program: &Program, calls: &[RawCall]) -> Result<TestCallList, Memory>
    ensures { IfOk result (λ list. list ≡ map (spec.bound_call program.now) calls.now) }
{
    let mut list = List::new(alloc);
    for call in calls {
        list.push(bound_call(alloc, program, call)?)?;
    }
    Ok(list)
}

fn bound_test(alloc: Global, program: &Program, test: &RawTest) -> Result<Test, Memory>
    ensures { IfOk result (λ bound. bound ≡ spec.bound_test program.now test.now) }
{
    let name = copy(alloc, &test.name)?;
    let calls = bound_calls(alloc, program, test.calls.as_slice())?;
    let answers = numbers(alloc, test.answers.as_slice())?;
    let turns = test.turns;
    let requirements = texts(alloc, test.requirements.as_slice())?;
    Ok(Test {
        name,
        calls,
        answers,
        turns,
        requirements,
    })
}

// The tests, whose calls break no rule.
fn bound_tests(alloc: Global, program: &Program, tests: &[RawTest]) -> Result<TestList, Memory>
    ensures { IfOk result (λ list. list ≡ map (spec.bound_test program.now) tests.now) }
{
    let mut list = List::new(alloc);
    for test in tests {
        list.push(bound_test(alloc, program, test)?)?;
    }
    Ok(list)
}

// The first call of these tests that breaks a rule: the test and the call, counted from 0, and the rule.
fn first_in(program: &Program, mut tests: &[RawTest]) -> Option<TestFault>
    requires few { length tests.now ≤ 1000 }
    requires calls { All IsWellMadeTest tests.now }
    ensures { result ≡ tests_fault program.now 0 tests.entry.now }
{
    let mut number = 0;
    while let [test, rest @ ..] = tests {
        if let Some((call, rule)) = first_fault(program, test.calls.as_slice()) {
            return Some(TestFault::Shape {
                test: number,
                call,
                rule,
            });
        }
        number += 1;
        tests = rest;
    }
    None
}

/// The project's tests, each call tied to the entry that it names.
///
/// # Errors
///
/// `Shape` at the first test and there the first call that breaks one of B1 to B3 (docs/rules.md), with the least rule;
/// `Memory` where memory is wanting.
pub fn bind_tests(
    alloc: Global,
    project: &Project,
    program: &Program,
) -> Result<TestList, TestFault>
    ensures ok { IfOk result (spec.AreBound program.now project.now.tests) }
    ensures err { IfErr result (Reports (test_fault program.now project.now)) }
{
    let tests = project.tests.as_slice();
    if let Some(fault) = first_in(program, tests) {
        return Err(fault);
    }
    Ok(bound_tests(alloc, program, tests)?)
}
