// The rules, in their order.
ghost use Rattle.std.specs.Prelude.{◌≡◌, ◌++◌, ◌∷◌, [], None, OnOk, IfErr, map, codes, ◌&&◌, nat_lt};
ghost use Rattle.toml.specs.Data.{get};
ghost use Rattle.toml.specs.View.{view};
ghost use Rattle.cc_project.specs.Keys.{field_text};
ghost use Rattle.cc_project.specs.Order.{array_rules, new_array_rules, at_each, at_each_new, component_rules, components_rules, test_rules, tests_rules, justification_rules, justifications_rules, justified_rules, first_failing, shape_fault, name_of, files_of, line_of};
ghost use Rattle.cc_project.specs.Names as names;
ghost use Rattle.cc_project.specs.Outcome.{Reports};
ghost use Rattle.cc_project.specs.Rules as rule;
ghost use Rattle.cc_project.specs.Values as spec;
ghost use Rattle.cc_project.specs.Views.{data_in, all_data, test_of};

use crate::fault::{Field, ProjectFault, demand_at, demand_of, member, top};
use crate::limit::{
    MOST_ANSWERS, MOST_CALLS, MOST_COMPONENTS, MOST_FILES, MOST_FUNCTIONS, MOST_JUSTIFIED,
    MOST_REQUIREMENTS, MOST_TESTS,
};
use crate::name::is_function_name;
use crate::rule::{
    COMPONENT_KEYS, COMPONENT_NAME, COMPONENTS, ENTRIES, ENVIRONMENT, FILES, FORMAT, JUSTIFIED,
    JUSTIFIED_KEYS, LINE, NEW_COMPONENT, NEW_FILE, OTHER_KEYS, REASON, TEST_LISTS, TEST_NAME,
    TESTS, TURNS,
};
use crate::seen::Seen;
use crate::value::{
    Kind, at_key, fits, has_array, has_only, has_only_document_keys, is_format, is_name_value,
    is_reason_value, is_string, is_turns, items_in, justified_in, may_have_array, text_in, text_of,
};
use std::alloc::Global;
use toml::Value;

// Whether a file may come after `count` others.
fn is_new_file(is_new: bool, count: usize) -> bool
    ensures { result ≡ (is_new && nat_lt count 64) }
{
    is_new && count < MOST_FILES
}

fn is_entry(text: &str, is_new: bool) -> bool
    ensures { result ≡ (names.is_function_name text.now && is_new) }
{
    is_function_name(text.as_bytes()) && is_new
}

fn is_environment(text: &str, is_new: bool, entries: &Seen<'_>) -> bool
    ensures { result ≡ ((names.is_function_name text.now && is_new) && names.is_new entries.now text.now) }
{
    is_entry(text, is_new) && entries.is_new(text)
}

fn is_test_name(value: Option<&Value>, is_new: bool) -> bool
    ensures { result ≡ (rule.is_component_name (data_in value.entry) && is_new) }
{
    is_name_value(value) && is_new
}

fn is_line(value: Option<&Value>, is_new: bool) -> bool
    ensures { result ≡ (spec.is_there spec.is_text (data_in value.entry) && is_new) }
{
    is_string(value) && is_new
}

// Each item is of this kind.
fn check_items(
    alloc: Global,
    field: Field,
    rule: u8,
    kind: Kind,
    items: &[Value],
) -> Result<(), ProjectFault>
    ensures ok { OnOk result (first_failing (at_each (field_text field) rule (test_of kind) 0 (all_data items.now)) ≡ None) }
    ensures err { IfErr result (Reports (first_failing (at_each (field_text field) rule (test_of kind) 0 (all_data items.now)))) }
{
    for k in 0..items.len() {
        let item = &items[k];
        demand_at(alloc, field, k, rule, fits(kind, item))?;
    }
    Ok(())
}

// A rule on an array as a whole, and then on each of its items.
fn check_array(
    alloc: Global,
    field: Field,
    rule: u8,
    whole: bool,
    kind: Kind,
    value: Option<&Value>,
) -> Result<(), ProjectFault>
    ensures ok { OnOk result (first_failing (array_rules (field_text field) rule whole (test_of kind) (data_in value.entry)) ≡ None) }
    ensures err { IfErr result (Reports (first_failing (array_rules (field_text field) rule whole (test_of kind) (data_in value.entry)))) }
{
    demand_of(alloc, field, rule, whole)?;
    check_items(alloc, field, rule, kind, items_in(value))?;
    Ok(())
}

// J6: each file is a new one, and none after the 64th.
fn check_files<'a>(
    alloc: Global,
    field: Field,
    items: &'a [Value],
    files: &mut Seen<'a>,
) -> Result<(), ProjectFault>
    ensures ok { OnOk result (first_failing (at_each_new (field_text field) 6 rule.is_new_file 0 files.old (map spec.text_of (all_data items.now))) ≡ None) }
    ensures err { IfErr result (Reports (first_failing (at_each_new (field_text field) 6 rule.is_new_file 0 files.old (map spec.text_of (all_data items.now))))) }
    ensures files { OnOk result (files.new ≡ files.old ++ map spec.text_of (all_data items.now)) }
{
    for k in 0..items.len() {
        let item = &items[k];
        let count = files.len();
        let is_new = files.add(text_of(item))?;
        demand_at(alloc, field, k, NEW_FILE, is_new_file(is_new, count))?;
    }
    Ok(())
}

// J8: each item is the name of a function, and a new one.
fn check_entries<'a>(
    alloc: Global,
    items: &'a [Value],
    entries: &mut Seen<'a>,
) -> Result<(), ProjectFault>
    ensures ok { OnOk result (first_failing (at_each_new (codes "entries") 8 rule.is_entry 0 entries.old (map spec.text_of (all_data items.now))) ≡ None) }
    ensures err { IfErr result (Reports (first_failing (at_each_new (codes "entries") 8 rule.is_entry 0 entries.old (map spec.text_of (all_data items.now))))) }
    ensures entries { OnOk result (entries.new ≡ entries.old ++ map spec.text_of (all_data items.now)) }
{
    for k in 0..items.len() {
        let item = &items[k];
        let text = text_of(item);
        let is_new = entries.add(text)?;
        demand_at(alloc, top("entries"), k, ENTRIES, is_entry(text, is_new))?;
    }
    Ok(())
}

// J9: each item is the name of a function, a new one, and no entry.
fn check_environment<'a>(
    alloc: Global,
    items: &'a [Value],
    entries: &Seen<'a>,
    environment: &mut Seen<'a>,
) -> Result<(), ProjectFault>
    ensures ok { OnOk result (first_failing (at_each_new (codes "environment") 9 (rule.is_environment entries.now) 0 environment.old (map spec.text_of (all_data items.now))) ≡ None) }
    ensures err { IfErr result (Reports (first_failing (at_each_new (codes "environment") 9 (rule.is_environment entries.now) 0 environment.old (map spec.text_of (all_data items.now))))) }
{
    for k in 0..items.len() {
        let item = &items[k];
        let text = text_of(item);
        let is_new = environment.add(text)?;
        let holds = is_environment(text, is_new, entries);
        demand_at(alloc, top("environment"), k, ENVIRONMENT, holds)?;
    }
    Ok(())
}

fn check_entry_array<'a>(
    alloc: Global,
    value: Option<&'a Value>,
    entries: &mut Seen<'a>,
) -> Result<(), ProjectFault>
    requires { entries.old ≡ [] }
    ensures ok { OnOk result (first_failing (new_array_rules (codes "entries") 8 (rule.is_entry_array (data_in value.entry)) rule.is_entry (data_in value.entry)) ≡ None) }
    ensures err { IfErr result (Reports (first_failing (new_array_rules (codes "entries") 8 (rule.is_entry_array (data_in value.entry)) rule.is_entry (data_in value.entry)))) }
    ensures entries { OnOk result (entries.new ≡ spec.texts_in (data_in value.entry)) }
{
    demand_of(
        alloc,
        top("entries"),
        ENTRIES,
        has_array(1, MOST_FUNCTIONS, Kind::Text, value),
    )?;
    check_entries(alloc, items_in(value), entries)?;
    Ok(())
}

fn check_environment_array<'a>(
    alloc: Global,
    value: Option<&'a Value>,
    entries: &Seen<'a>,
) -> Result<(), ProjectFault>
    ensures ok { OnOk result (first_failing (new_array_rules (codes "environment") 9 (rule.is_environment_array (data_in value.entry)) (rule.is_environment entries.now) (data_in value.entry)) ≡ None) }
    ensures err { IfErr result (Reports (first_failing (new_array_rules (codes "environment") 9 (rule.is_environment_array (data_in value.entry)) (rule.is_environment entries.now) (data_in value.entry)))) }
{
    demand_of(
        alloc,
        top("environment"),
        ENVIRONMENT,
        may_have_array(MOST_FUNCTIONS, Kind::Text, value),
    )?;
    let mut environment = Seen::new(alloc);
    check_environment(alloc, items_in(value), entries, &mut environment)?;
    Ok(())
}

// J3 to J7 for component `i`, behind components with these names and files.
fn check_component<'a>(
    alloc: Global,
    i: usize,
    component: &'a Value,
    names: &mut Seen<'a>,
    files: &mut Seen<'a>,
) -> Result<(), ProjectFault>
    ensures ok { OnOk result (first_failing (component_rules i names.old files.old (view component.now)) ≡ None) }
    ensures err { IfErr result (Reports (first_failing (component_rules i names.old files.old (view component.now)))) }
    ensures names { OnOk result (names.new ≡ names.old ++ name_of (view component.now) ∷ []) }
    ensures files { OnOk result (files.new ≡ files.old ++ files_of (view component.now)) }
{
    let name = at_key(component, "name");
    demand_of(
        alloc,
        member("component", i, "name"),
        COMPONENT_NAME,
        is_name_value(name),
    )?;
    let is_new = names.add(text_in(name))?;
    demand_of(alloc, member("component", i, "name"), NEW_COMPONENT, is_new)?;
    let array = at_key(component, "files");
    let field = member("component", i, "files");
    let is_whole = has_array(1, MOST_FILES, Kind::Text, array);
    check_array(alloc, field, FILES, is_whole, Kind::File, array)?;
    check_files(alloc, field, items_in(array), files)?;
    let is_all = has_only(component, &["name", "files"]);
    demand_at(alloc, top("component"), i, COMPONENT_KEYS, is_all)?;
    Ok(())
}

fn check_components<'a>(alloc: Global, components: &'a [Value]) -> Result<(), ProjectFault>
    ensures ok { OnOk result (first_failing (components_rules 0 [] [] (all_data components.now)) ≡ None) }
    ensures err { IfErr result (Reports (first_failing (components_rules 0 [] [] (all_data components.now)))) }
{
    let mut names = Seen::new(alloc);
    let mut files = Seen::new(alloc);
    for i in 0..components.len() {
        let component = &components[i];
        check_component(alloc, i, component, &mut names, &mut files)?;
    }
    Ok(())
}

// J11 to J14 for test `i`, behind tests with these names.
fn check_test<'a>(
    alloc: Global,
    i: usize,
    test: &'a Value,
    names: &mut Seen<'a>,
) -> Result<(), ProjectFault>
    ensures ok { OnOk result (first_failing (test_rules i names.old (view test.now)) ≡ None) }
    ensures err { IfErr result (Reports (first_failing (test_rules i names.old (view test.now)))) }
    ensures names { OnOk result (names.new ≡ names.old ++ name_of (view test.now) ∷ []) }
{
    let name = at_key(test, "name");
    let is_new = names.add(text_in(name))?;
    demand_of(
        alloc,
        member("test", i, "name"),
        TEST_NAME,
        is_test_name(name, is_new),
    )?;
    demand_of(
        alloc,
        member("test", i, "turns"),
        TURNS,
        is_turns(at_key(test, "turns")),
    )?;
    let calls = at_key(test, "calls");
    let is_whole = has_array(0, MOST_CALLS, Kind::Any, calls);
    check_array(
        alloc,
        member("test", i, "calls"),
        TEST_LISTS,
        is_whole,
        Kind::Call,
        calls,
    )?;
    let answers = at_key(test, "answers");
    let is_whole = may_have_array(MOST_ANSWERS, Kind::Any, answers);
    check_array(
        alloc,
        member("test", i, "answers"),
        TEST_LISTS,
        is_whole,
        Kind::Integer,
        answers,
    )?;
    let listed = at_key(test, "requirements");
    let is_whole = may_have_array(MOST_REQUIREMENTS, Kind::Any, listed);
    check_array(
        alloc,
        member("test", i, "requirements"),
        TEST_LISTS,
        is_whole,
        Kind::Requirement,
        listed,
    )?;
    let is_all = has_only(test, &["name", "turns", "calls", "answers", "requirements"]);
    demand_at(alloc, top("test"), i, OTHER_KEYS, is_all)?;
    Ok(())
}

fn check_tests<'a>(alloc: Global, tests: &'a [Value]) -> Result<(), ProjectFault>
    ensures ok { OnOk result (first_failing (tests_rules 0 [] (all_data tests.now)) ≡ None) }
    ensures err { IfErr result (Reports (first_failing (tests_rules 0 [] (all_data tests.now)))) }
{
    let mut names = Seen::new(alloc);
    for i in 0..tests.len() {
        let test = &tests[i];
        check_test(alloc, i, test, &mut names)?;
    }
    Ok(())
}

// J16 to J18 for justification `i`, behind justifications with these lines.
fn check_justification<'a>(
    alloc: Global,
    i: usize,
    justified: &'a Value,
    lines: &mut Seen<'a>,
) -> Result<(), ProjectFault>
    ensures ok { OnOk result (first_failing (justification_rules i lines.old (view justified.now)) ≡ None) }
    ensures err { IfErr result (Reports (first_failing (justification_rules i lines.old (view justified.now)))) }
    ensures lines { OnOk result (lines.new ≡ lines.old ++ line_of (view justified.now) ∷ []) }
{
    let line = at_key(justified, "line");
    let is_new = lines.add(text_in(line))?;
    demand_of(
        alloc,
        member("justified", i, "line"),
        LINE,
        is_line(line, is_new),
    )?;
    demand_of(
        alloc,
        member("justified", i, "reason"),
        REASON,
        is_reason_value(at_key(justified, "reason")),
    )?;
    let is_all = has_only(justified, &["line", "reason"]);
    demand_at(alloc, top("justified"), i, JUSTIFIED_KEYS, is_all)?;
    Ok(())
}

fn check_justifications<'a>(alloc: Global, items: &'a [Value]) -> Result<(), ProjectFault>
    ensures ok { OnOk result (first_failing (justifications_rules 0 [] (all_data items.now)) ≡ None) }
    ensures err { IfErr result (Reports (first_failing (justifications_rules 0 [] (all_data items.now)))) }
{
    let mut lines = Seen::new(alloc);
    for i in 0..items.len() {
        let justified = &items[i];
        check_justification(alloc, i, justified, &mut lines)?;
    }
    Ok(())
}

fn check_justified_array(alloc: Global, value: Option<&Value>) -> Result<(), ProjectFault>
    ensures ok { OnOk result (first_failing (justified_rules (data_in value.entry)) ≡ None) }
    ensures err { IfErr result (Reports (first_failing (justified_rules (data_in value.entry)))) }
{
    demand_of(
        alloc,
        top("justified"),
        JUSTIFIED,
        may_have_array(MOST_JUSTIFIED, Kind::Table, value),
    )?;
    check_justifications(alloc, items_in(value))?;
    Ok(())
}

/// `Ok` where the document breaks no rule, and else the first that it breaks.
pub fn check(alloc: Global, document: &Value) -> Result<(), ProjectFault>
    ensures ok { OnOk result (shape_fault (view document.now) ≡ None) }
    ensures err { IfErr result (Reports (shape_fault (view document.now))) }
{
    demand_of(
        alloc,
        top("format"),
        FORMAT,
        is_format(at_key(document, "format")),
    )?;
    let components = at_key(document, "component");
    demand_of(
        alloc,
        top("component"),
        COMPONENTS,
        has_array(1, MOST_COMPONENTS, Kind::Table, components),
    )?;
    check_components(alloc, items_in(components))?;
    let mut entries = Seen::new(alloc);
    check_entry_array(alloc, at_key(document, "entries"), &mut entries)?;
    check_environment_array(alloc, at_key(document, "environment"), &entries)?;
    let tests = at_key(document, "test");
    demand_of(
        alloc,
        top("test"),
        TESTS,
        may_have_array(MOST_TESTS, Kind::Table, tests),
    )?;
    check_tests(alloc, items_in(tests))?;
    check_justified_array(alloc, justified_in(document))?;
    demand_of(
        alloc,
        top("top"),
        OTHER_KEYS,
        has_only_document_keys(document),
    )?;
    Ok(())
}
