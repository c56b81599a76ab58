// The texts of the files.
ghost use Rattle.std.specs.Prelude.{◌≡◌, ◌≤◌, IfOk, OnOk, ◌++◌, string_bytes};
ghost use Rattle.cc_gen.specs.Generated as spec;

use std::alloc::{AllocError, Global};

/// How many functions each component has.
pub const FUNCTIONS: u32 = 20;

// Function j of component i of n.
fn function_text(alloc: Global, n: u32, i: u32, j: u32) -> Result<String, AllocError>
    requires at { i ≤ n }
    requires n { n ≤ 60 }
    ensures { IfOk result (λ text. string_bytes text ≡ spec.function_text n i j) }
{
    if i < n {
        calling(alloc, i, i + 1, j)
    } else {
        ending(alloc, i, j)
    }
}

fn variable(alloc: Global, i: u32, j: u32) -> Result<String, AllocError>
    ensures { IfOk result (λ text. string_bytes text ≡ spec.variable i j) }
{
    format!(in alloc; "v{i}_{j}")
}

fn function(alloc: Global, i: u32, j: u32) -> Result<String, AllocError>
    ensures { IfOk result (λ text. string_bytes text ≡ spec.function i j) }
{
    format!(in alloc; "s{i}_{j}")
}

fn external(alloc: Global, variable: &str) -> Result<String, AllocError>
    ensures { IfOk result (λ text. string_bytes text ≡ spec.external variable.now) }
{
    format!(in alloc; "extern int {variable};\n")
}

fn declared(alloc: Global, variable: &str) -> Result<String, AllocError>
    ensures { IfOk result (λ text. string_bytes text ≡ spec.declared variable.now) }
{
    format!(in alloc; "int {variable};\n")
}

fn prototype(alloc: Global, function: &str) -> Result<String, AllocError>
    ensures { IfOk result (λ text. string_bytes text ≡ spec.prototype function.now) }
{
    format!(in alloc; "int {function}(int n);\n")
}

// The beginning of a function's line: it writes its variable.
fn begun(alloc: Global, function: &str, variable: &str) -> Result<String, AllocError>
    ensures { IfOk result (λ text. string_bytes text ≡ spec.begun function.now variable.now) }
{
    format!(in alloc; "int {function}(int n) {{ {variable} = n;")
}

// The call of another function, and the read of its variable.
fn calls_on(alloc: Global, function: &str, variable: &str) -> Result<String, AllocError>
    ensures { IfOk result (λ text. string_bytes text ≡ spec.calls_on function.now variable.now) }
{
    format!(in alloc; " if (n > 0) n = {function}(n - 1) + {variable};")
}

// What a file says of the function that it calls, and of its own variable.
#[tactic(auto, unfolding(crate::specs::Generated::declarations))]
fn declarations(alloc: Global, other: &str, own: &str, callee: &str) -> Result<String, AllocError>
    ensures { IfOk result (λ text. string_bytes text ≡ spec.declarations other.now own.now callee.now) }
{
    let mut text = external(alloc, other)?;
    let line = declared(alloc, own)?;
    text.push_str(line.as_str())?;
    let head = prototype(alloc, callee)?;
    text.push_str(head.as_str())?;
    Ok(text)
}

// A function that writes its variable, calls another one, and reads that one's variable.
#[tactic(auto, unfolding(crate::specs::Generated::definition))]
fn definition(
    alloc: Global,
    caller: &str,
    own: &str,
    callee: &str,
    other: &str,
) -> Result<String, AllocError>
    ensures { IfOk result (λ text. string_bytes text
        ≡ spec.definition caller.now own.now callee.now other.now) }
{
    let mut text = begun(alloc, caller, own)?;
    let middle = calls_on(alloc, callee, other)?;
    text.push_str(middle.as_str())?;
    text.push_str(" return n; }\n")?;
    Ok(text)
}

// Function j of component i, where the next component is k.
fn calling(alloc: Global, i: u32, k: u32, j: u32) -> Result<String, AllocError>
    ensures { IfOk result (λ text. string_bytes text ≡ spec.calling i k j) }
{
    let own = variable(alloc, i, j)?;
    let other = variable(alloc, k, j)?;
    let caller = function(alloc, i, j)?;
    let callee = function(alloc, k, j)?;
    let mut text = declarations(alloc, other.as_str(), own.as_str(), callee.as_str())?;
    let line = definition(
        alloc,
        caller.as_str(),
        own.as_str(),
        callee.as_str(),
        other.as_str(),
    )?;
    text.push_str(line.as_str())?;
    Ok(text)
}

// Function j of the last component.
fn ending(alloc: Global, i: u32, j: u32) -> Result<String, AllocError>
    ensures { IfOk result (λ text. string_bytes text ≡ spec.ending i j) }
{
    let own = variable(alloc, i, j)?;
    let caller = function(alloc, i, j)?;
    let mut text = declared(alloc, own.as_str())?;
    let start = begun(alloc, caller.as_str(), own.as_str())?;
    text.push_str(start.as_str())?;
    text.push_str(" return n; }\n")?;
    Ok(text)
}

/// The file of component i of n.
#[tactic(auto, using(crate::proofs::More::functions_more))]
pub fn unit_text(alloc: Global, n: u32, i: u32) -> Result<String, AllocError>
    requires at { i ≤ n }
    requires n { n ≤ 60 }
    ensures { IfOk result (λ text. string_bytes text ≡ spec.unit_text n i) }
{
    let mut text = String::new(alloc);
    for j in 0..FUNCTIONS {
        let function = function_text(alloc, n, i, j + 1)?;
        text.push_str(function.as_str())?;
    }
    Ok(text)
}

/// The name of the file of component i.
pub fn unit_name(alloc: Global, i: u32) -> Result<String, AllocError>
    ensures { IfOk result (λ text. string_bytes text ≡ spec.unit_name i) }
{
    format!(in alloc; "c{i}.c")
}

// Puts a comma and a space where something stands before.
fn push_comma(text: &mut String, before: u32) -> Result<(), AllocError>
    ensures { OnOk result (string_bytes text.new ≡ string_bytes text.old ++ spec.comma before) }
{
    if before > 0 {
        text.push_str(", ")?;
    }
    Ok(())
}

// The entries, with commas between.
#[tactic(auto, using(crate::proofs::More::entries_more))]
fn entries_text(alloc: Global) -> Result<String, AllocError>
    ensures { IfOk result (λ text. string_bytes text ≡ spec.entries_text 20) }
{
    let mut text = String::new(alloc);
    for j in 0..FUNCTIONS {
        push_comma(&mut text, j)?;
        let entry = entry_text(alloc, j + 1)?;
        text.push_str(entry.as_str())?;
    }
    Ok(text)
}

fn entry_text(alloc: Global, j: u32) -> Result<String, AllocError>
    ensures { IfOk result (λ text. string_bytes text ≡ spec.entry_text j) }
{
    format!(in alloc; "\"s1_{j}\"")
}

// A call of each entry with this argument.
#[tactic(auto, using(crate::proofs::More::calls_more))]
fn calls_text(alloc: Global, argument: u32) -> Result<String, AllocError>
    ensures { IfOk result (λ text. string_bytes text ≡ spec.calls_text argument 20) }
{
    let mut text = String::new(alloc);
    for j in 0..FUNCTIONS {
        push_comma(&mut text, j)?;
        let call = call_text(alloc, argument, j + 1)?;
        text.push_str(call.as_str())?;
    }
    Ok(text)
}

fn call_text(alloc: Global, argument: u32, j: u32) -> Result<String, AllocError>
    ensures { IfOk result (λ text. string_bytes text ≡ spec.call_text argument j) }
{
    format!(in alloc; "[\"s1_{j}\", {argument}]")
}

fn component_text(alloc: Global, i: u32) -> Result<String, AllocError>
    ensures { IfOk result (λ text. string_bytes text ≡ spec.component_text i) }
{
    format!(in alloc; "\n[[component]]\nname = \"C{i}\"\nfiles = [\"c{i}.c\"]\n")
}

#[tactic(auto, using(crate::proofs::More::components_more))]
fn components_text(alloc: Global, n: u32) -> Result<String, AllocError>
    requires { n ≤ 60 }
    ensures { IfOk result (λ text. string_bytes text ≡ spec.components_text n) }
{
    let mut text = String::new(alloc);
    for i in 0..n {
        let component = component_text(alloc, i + 1)?;
        text.push_str(component.as_str())?;
    }
    Ok(text)
}

// A test that calls each entry with this argument.
fn test_text(alloc: Global, name: u32, argument: u32) -> Result<String, AllocError>
    ensures { IfOk result (λ text. string_bytes text ≡ spec.test_text name argument) }
{
    let calls = calls_text(alloc, argument)?;
    format!(in alloc; "\n[[test]]\nname = \"T{name}\"\nturns = 100000\ncalls = [{calls}]\n")
}

/// The project file of n components.
pub fn project_text(alloc: Global, n: u32) -> Result<String, AllocError>
    requires { n ≤ 60 }
    ensures { IfOk result (λ text. string_bytes text ≡ spec.project_text n) }
{
    let mut text = String::from_str(alloc, "format = 1\nentries = [")?;
    let entries = entries_text(alloc)?;
    text.push_str(entries.as_str())?;
    text.push_str("]\n")?;
    let components = components_text(alloc, n)?;
    text.push_str(components.as_str())?;
    let test = test_text(alloc, 1, 0)?;
    text.push_str(test.as_str())?;
    let test = test_text(alloc, 2, n)?;
    text.push_str(test.as_str())?;
    Ok(text)
}
