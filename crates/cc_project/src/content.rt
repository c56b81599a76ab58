// What a document says.
ghost use Rattle.std.specs.Prelude.{◌≡◌, ◌≤◌, ◌+◌, ◌++◌, None, IfOk, OnOk, map, length};
ghost use Rattle.toml.specs.View.{view};
ghost use Rattle.cc_project.specs.Order.{name_of, shape_fault};
ghost use Rattle.cc_project.specs.Project.{call_in, call_of, test_of, turns_in, files_in, files_from, format_of, justified_of, project_of};
ghost use Rattle.cc_project.specs.Values as spec;
ghost use Rattle.cc_project.specs.Views.{data_in, all_data, texts_of};

use crate::limit::MOST_TURNS;
use crate::project::{
    NumberList, Project, ProjectFile, ProjectFileList, RawCall, RawCallList, RawJustified,
    RawJustifiedList, RawTest, RawTestList, TextList,
};
use crate::value::{at_key, is_second, items_in, items_of, justified_in, text_in, text_of};
use cc_base::{CompId, List, Memory, Text};
use std::alloc::Global;
use toml::Value;

// A text of its own.
fn copy(alloc: Global, text: &str) -> Result<Text, Memory>
    ensures { IfOk result (λ copied. copied ≡ text.now) }
{
    Ok(Text::new(String::from_str(alloc, text)?))
}

// The strings of these items.
fn texts(alloc: Global, items: &[Value]) -> Result<TextList, Memory>
    ensures { IfOk result (λ list. list ≡ texts_of items.now) }
{
    let mut list = List::new(alloc);
    for item in items {
        list.push(copy(alloc, text_of(item))?)?;
    }
    Ok(list)
}

// The integer, or 0.
fn integer(value: &Value) -> i64
    ensures { result ≡ spec.integer_of (view value.now) }
{
    match value {
        Value::Integer(number) => *number,
        _ => 0,
    }
}

// The integers of these items.
fn integers(alloc: Global, items: &[Value]) -> Result<NumberList, Memory>
    ensures { IfOk result (λ list. list ≡ map spec.integer_of (all_data items.now)) }
{
    let mut list = List::new(alloc);
    for item in items {
        list.push(integer(item))?;
    }
    Ok(list)
}

// A call by the items of its array: the entry, and then the arguments.
fn call_of_items(alloc: Global, items: &[Value]) -> Result<RawCall, Memory>
    ensures { IfOk result (λ call. call ≡ call_in (all_data items.now)) }
{
    match items {
        [entry, arguments @ ..] => {
            let entry = copy(alloc, text_of(entry))?;
            let args = integers(alloc, arguments)?;
            Ok(RawCall { entry, args })
        }
        [] => {
            let entry = copy(alloc, "")?;
            let args = integers(alloc, &[])?;
            Ok(RawCall { entry, args })
        }
    }
}

// The call that an array says.
fn call(alloc: Global, value: &Value) -> Result<RawCall, Memory>
    ensures { IfOk result (λ call. call ≡ call_of (view value.now)) }
{
    call_of_items(alloc, items_of(value))
}

// The calls that these arrays say.
fn calls(alloc: Global, items: &[Value]) -> Result<RawCallList, Memory>
    ensures { IfOk result (λ list. list ≡ map call_of (all_data items.now)) }
{
    let mut list = List::new(alloc);
    for item in items {
        list.push(call(alloc, item)?)?;
    }
    Ok(list)
}

// The number of turns, or 0 where it is none.
fn turns(value: Option<&Value>) -> u32
    ensures { result ≡ turns_in (data_in value.entry) }
{
    match value {
        Some(Value::Integer(number)) => {
            if 1 <= *number && *number <= MOST_TURNS {
                *number as u32
            } else {
                0
            }
        }
        _ => 0,
    }
}

// The test that a table says.
fn test(alloc: Global, value: &Value) -> Result<RawTest, Memory>
    ensures { IfOk result (λ test. test ≡ test_of (view value.now)) }
{
    let name = copy(alloc, text_in(at_key(value, "name")))?;
    let calls = calls(alloc, items_in(at_key(value, "calls")))?;
    let answers = integers(alloc, items_in(at_key(value, "answers")))?;
    let turns = turns(at_key(value, "turns"));
    let requirements = texts(alloc, items_in(at_key(value, "requirements")))?;
    Ok(RawTest {
        name,
        calls,
        answers,
        turns,
        requirements,
    })
}

// The tests that these tables say.
fn tests(alloc: Global, items: &[Value]) -> Result<RawTestList, Memory>
    ensures { IfOk result (λ list. list ≡ map test_of (all_data items.now)) }
{
    let mut list = List::new(alloc);
    for item in items {
        list.push(test(alloc, item)?)?;
    }
    Ok(list)
}

// The justified row that a table says.
fn justified(alloc: Global, value: &Value) -> Result<RawJustified, Memory>
    ensures { IfOk result (λ justified. justified ≡ justified_of (view value.now)) }
{
    let line = copy(alloc, text_in(at_key(value, "line")))?;
    let reason = copy(alloc, text_in(at_key(value, "reason")))?;
    Ok(RawJustified { line, reason })
}

// The justified rows that these tables say.
fn justifications(alloc: Global, items: &[Value]) -> Result<RawJustifiedList, Memory>
    ensures { IfOk result (λ list. list ≡ map justified_of (all_data items.now)) }
{
    let mut list = List::new(alloc);
    for item in items {
        list.push(justified(alloc, item)?)?;
    }
    Ok(list)
}

// The format of a document that has one.
fn format_of(document: &Value) -> u32
    ensures { result ≡ format_of (view document.now) }
{
    if is_second(document) { 2 } else { 1 }
}

// The names of components.
fn names(alloc: Global, items: &[Value]) -> Result<TextList, Memory>
    ensures { IfOk result (λ list. list ≡ map name_of (all_data items.now)) }
{
    let mut list = List::new(alloc);
    for item in items {
        list.push(copy(alloc, text_in(at_key(item, "name")))?)?;
    }
    Ok(list)
}

// Adds the files of component `i`.
fn add_files(
    alloc: Global,
    i: u32,
    items: &[Value],
    list: &mut ProjectFileList,
) -> Result<(), Memory>
    ensures { OnOk result (list.new ≡ list.old ++ files_in i (texts_of items.now)) }
{
    for item in items {
        let name = copy(alloc, text_of(item))?;
        list.push(ProjectFile {
            name,
            component: CompId(i),
        })?;
    }
    Ok(())
}

// The files of all components.
fn files(alloc: Global, items: &[Value]) -> Result<ProjectFileList, Memory>
    requires { length items.now ≤ 64 }
    ensures { IfOk result (λ list. list ≡ files_from 0 (all_data items.now)) }
{
    let mut list = List::new(alloc);
    for i in 0..items.len() {
        let item = &items[i];
        add_files(alloc, i as u32, items_in(at_key(item, "files")), &mut list)?;
    }
    Ok(list)
}

/// What a document says that breaks no rule.
pub fn project(alloc: Global, document: &Value) -> Result<Project, Memory>
    requires { shape_fault (view document.now) ≡ None }
    ensures { IfOk result (λ project. project ≡ project_of (view document.now)) }
{
    let listed = items_in(at_key(document, "component"));
    let components = names(alloc, listed)?;
    let files = files(alloc, listed)?;
    let entries = texts(alloc, items_in(at_key(document, "entries")))?;
    let environment = texts(alloc, items_in(at_key(document, "environment")))?;
    let tests = tests(alloc, items_in(at_key(document, "test")))?;
    let justified = justifications(alloc, items_in(justified_in(document)))?;
    Ok(Project {
        format: format_of(document),
        components,
        files,
        entries,
        environment,
        tests,
        justified,
    })
}
