// What a value of the document is, and what it has in it.
ghost use Rattle.std.specs.Prelude.{◌≡◌, map};
ghost use Rattle.std.specs.List.{list_all};
ghost use Rattle.toml.specs.Data.{get};
ghost use Rattle.toml.specs.View.{view, table_view};
ghost use Rattle.cc_project.specs.Names.{is_among};
ghost use Rattle.cc_project.specs.Values as spec;
ghost use Rattle.cc_project.specs.Rules as rule;
ghost use Rattle.cc_project.specs.Views.{data_in, all_data, test_of};

use crate::limit::{MOST_ARGUMENTS, MOST_TURNS};
use crate::name::{is_file_name, is_name, is_reason, is_requirement};
use toml::{Table, Value};

/// What is asked of each item of an array.
#[derive(Clone, Copy)]
pub enum Kind {
    Any,
    Text,
    Integer,
    Table,
    File,
    Call,
    Requirement,
}

// ---- Tests

fn is_text(value: &Value) -> bool
    ensures { result ≡ spec.is_text (view value.now) }
{
    matches!(value, Value::String(_))
}

fn is_integer(value: &Value) -> bool
    ensures { result ≡ spec.is_integer (view value.now) }
{
    matches!(value, Value::Integer(_))
}

fn is_table(value: &Value) -> bool
    ensures { result ≡ spec.is_table (view value.now) }
{
    matches!(value, Value::Table(_))
}

fn is_file(value: &Value) -> bool
    ensures { result ≡ rule.is_file (view value.now) }
{
    match value {
        Value::String(text) => is_file_name(text.as_str().as_bytes()),
        _ => false,
    }
}

fn is_requirement_text(value: &Value) -> bool
    ensures { result ≡ rule.is_requirement_text (view value.now) }
{
    match value {
        Value::String(text) => is_requirement(text.as_str().as_bytes()),
        _ => false,
    }
}

fn are_integers(mut values: &[Value]) -> bool
    ensures { result ≡ list_all spec.is_integer (all_data values.entry.now) }
{
    while let [value, rest @ ..] = values {
        if !is_integer(value) {
            return false;
        }
        values = rest;
    }
    true
}

// Whether the items are those of a call: a string, and at most 32 integers.
fn is_call_list(items: &[Value]) -> bool
    ensures { result ≡ rule.is_call_list (all_data items.now) }
{
    match items {
        [entry, arguments @ ..] => {
            is_text(entry) && arguments.len() <= MOST_ARGUMENTS && are_integers(arguments)
        }
        [] => false,
    }
}

fn is_call(value: &Value) -> bool
    ensures { result ≡ rule.is_call (view value.now) }
{
    match value {
        Value::Array(items) => is_call_list(items),
        _ => false,
    }
}

/// Whether the value is of this kind.
pub fn fits(kind: Kind, value: &Value) -> bool
    ensures { result ≡ test_of kind (view value.now) }
{
    match kind {
        Kind::Any => true,
        Kind::Text => is_text(value),
        Kind::Integer => is_integer(value),
        Kind::Table => is_table(value),
        Kind::File => is_file(value),
        Kind::Call => is_call(value),
        Kind::Requirement => is_requirement_text(value),
    }
}

fn all_fit(kind: Kind, mut values: &[Value]) -> bool
    ensures { result ≡ list_all (test_of kind) (all_data values.entry.now) }
{
    while let [value, rest @ ..] = values {
        if !fits(kind, value) {
            return false;
        }
        values = rest;
    }
    true
}

#[tactic(auto, using(crate::proofs::Values::length_of_data))]
fn is_list(least: usize, most: usize, kind: Kind, items: &[Value]) -> bool
    ensures { result ≡ spec.is_list least most (test_of kind) (all_data items.now) }
{
    least <= items.len() && items.len() <= most && all_fit(kind, items)
}

fn is_array(least: usize, most: usize, kind: Kind, value: &Value) -> bool
    ensures { result ≡ spec.is_array least most (test_of kind) (view value.now) }
{
    match value {
        Value::Array(items) => is_list(least, most, kind, items),
        _ => false,
    }
}

/// Whether the value is there, and an array of `least` to `most` items of this kind.
pub fn has_array(least: usize, most: usize, kind: Kind, value: Option<&Value>) -> bool
    ensures { result ≡ spec.is_there (spec.is_array least most (test_of kind)) (data_in value.entry) }
{
    match value {
        Some(value) => is_array(least, most, kind, value),
        None => false,
    }
}

/// Whether the value is missing, or an array of at most `most` items of this kind.
pub fn may_have_array(most: usize, kind: Kind, value: Option<&Value>) -> bool
    ensures { result ≡ spec.is_missing_or (spec.is_array 0 most (test_of kind)) (data_in value.entry) }
{
    match value {
        Some(value) => is_array(0, most, kind, value),
        None => true,
    }
}

/// Whether the value is the integer 1 or 2.
pub fn is_format(value: Option<&Value>) -> bool
    ensures { result ≡ rule.is_format (data_in value.entry) }
{
    match value {
        Some(Value::Integer(number)) => *number == 1 || *number == 2,
        _ => false,
    }
}

fn is_two(value: Option<&Value>) -> bool
    ensures { result ≡ spec.is_there rule.is_two (data_in value.entry) }
{
    match value {
        Some(Value::Integer(number)) => *number == 2,
        _ => false,
    }
}

/// Whether the document is of format 2.
pub fn is_second(document: &Value) -> bool
    ensures { result ≡ rule.is_second (view document.now) }
{
    is_two(at_key(document, "format"))
}

/// Whether the value is a name.
pub fn is_name_value(value: Option<&Value>) -> bool
    ensures { result ≡ rule.is_component_name (data_in value.entry) }
{
    match value {
        Some(Value::String(text)) => is_name(text.as_str().as_bytes()),
        _ => false,
    }
}

/// Whether the value is an integer from 1 to 10,000,000.
pub fn is_turns(value: Option<&Value>) -> bool
    ensures { result ≡ rule.is_turns (data_in value.entry) }
{
    match value {
        Some(Value::Integer(number)) => 1 <= *number && *number <= MOST_TURNS,
        _ => false,
    }
}

/// Whether the value is a string.
pub fn is_string(value: Option<&Value>) -> bool
    ensures { result ≡ spec.is_there spec.is_text (data_in value.entry) }
{
    match value {
        Some(value) => is_text(value),
        None => false,
    }
}

/// Whether the value is a reason.
pub fn is_reason_value(value: Option<&Value>) -> bool
    ensures { result ≡ rule.is_reason_value (data_in value.entry) }
{
    match value {
        Some(Value::String(text)) => is_reason(text.as_str().as_bytes()),
        _ => false,
    }
}

// Whether the text is one of these keys.
fn is_key(mut keys: &[&str], text: &str) -> bool
    ensures { result ≡ is_among (map (λ key. key.now) keys.entry.now) text.now }
{
    while let [key, rest @ ..] = keys {
        if text == *key {
            return true;
        }
        keys = rest;
    }
    false
}

fn has_only_keys(table: &Table, keys: &[&str]) -> bool
    ensures { result ≡ list_all (is_among (map (λ key. key.now) keys.now)) (spec.keys_of (table_view table.now)) }
{
    let mut members = table.iter();
    while let Some((key, _)) = members.next() {
        if !is_key(keys, key.as_str()) {
            return false;
        }
    }
    true
}

/// Whether the value is a table without other keys than these.
pub fn has_only(value: &Value, keys: &[&str]) -> bool
    ensures { result ≡ spec.has_only (map (λ key. key.now) keys.now) (view value.now) }
{
    match value {
        Value::Table(table) => has_only_keys(table, keys),
        _ => false,
    }
}

/// Whether the document has no key but those of its format.
pub fn has_only_document_keys(document: &Value) -> bool
    ensures { result ≡ rule.has_only_document_keys (view document.now) }
{
    if is_second(document) {
        has_only(
            document,
            &[
                "format",
                "component",
                "entries",
                "environment",
                "test",
                "justified",
            ],
        )
    } else {
        has_only(
            document,
            &["format", "component", "entries", "environment", "test"],
        )
    }
}

// ---- Parts

/// The value at this key of a table.
pub fn at_key<'a>(value: &'a Value, key: &str) -> Option<&'a Value>
    ensures { data_in result ≡ get key.now (view value.now) }
{
    value.get(key)
}

/// The value at `justified` of a document of format 2.
pub fn justified_in(document: &Value) -> Option<&Value>
    ensures { data_in result ≡ rule.justified_in (view document.now) }
{
    if is_second(document) {
        at_key(document, "justified")
    } else {
        None
    }
}

/// The string, or the empty text.
pub fn text_of(value: &Value) -> &str
    ensures { result.now ≡ spec.text_of (view value.now) }
{
    match value {
        Value::String(text) => text.as_str(),
        _ => "",
    }
}

/// The string, or the empty text.
pub fn text_in(value: Option<&Value>) -> &str
    ensures { result.now ≡ spec.text_in (data_in value.entry) }
{
    match value {
        Some(value) => text_of(value),
        None => "",
    }
}

/// The items of an array, or none.
pub fn items_of(value: &Value) -> &[Value]
    ensures { all_data result.now ≡ spec.items_of (view value.now) }
{
    match value {
        Value::Array(items) => items.as_slice(),
        _ => &[],
    }
}

/// The items of an array, or none.
pub fn items_in(value: Option<&Value>) -> &[Value]
    ensures { all_data result.now ≡ spec.items_in (data_in value.entry) }
{
    match value {
        Some(value) => items_of(value),
        None => &[],
    }
}
