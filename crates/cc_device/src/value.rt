// What a value of the document is, and what it has in it.
ghost use Rattle.std.specs.Prelude.{◌≡◌, true, length, map};
ghost use Rattle.std.specs.List.{list_all};
ghost use Rattle.toml.specs.Data.{get};
ghost use Rattle.toml.specs.View.{view, table_view};
ghost use Rattle.cc_project.specs.Names as names;
ghost use Rattle.cc_project.specs.Values as spec;
ghost use Rattle.cc_project.specs.Views.{data_in, all_data};
ghost use Rattle.cc_device.specs.Rules as rule;
ghost use Rattle.cc_device.specs.Views.{test_of};

use cc_base::Text;
use toml::{Table, Value};

/// What is asked of each item of an array.
#[derive(Clone, Copy)]
pub enum Kind {
    Text,
    Table,
}

// The most bytes of a name.
const MOST_NAME_BYTES: usize = 64;

// ---- Tests

// A letter, a digit, `_` or `-`.
fn in_name(byte: u8) -> bool
    ensures { result ≡ names.in_name byte }
{
    byte.is_ascii_alphanumeric() || byte == b'_' || byte == b'-'
}

fn are_in_name(text: &[u8]) -> bool
    ensures { result ≡ list_all names.in_name text.now }
{
    text.iter().all(|byte| in_name(*byte))
}

// Whether the text is 1 to 64 bytes of letters, digits, `_` and `-`, beginning with a letter.
#[tactic(auto, using(cc_project::proofs::NameParts::name_parts))]
fn is_name(text: &[u8]) -> bool
    ensures { result ≡ names.is_name text.now }
{
    match text.first() {
        Some(first) => {
            first.is_ascii_alphabetic() && are_in_name(text) && text.len() <= MOST_NAME_BYTES
        }
        None => false,
    }
}

/// Whether the value is a name.
pub fn is_name_value(value: Option<&Value>) -> bool
    ensures { result ≡ spec.is_there (spec.is_text_that names.is_name) (data_in value.entry) }
{
    match value {
        Some(Value::String(text)) => is_name(text.as_str().as_bytes()),
        _ => false,
    }
}

/// Whether the text is one of these.
pub fn is_among(mut texts: &[Text], text: &str) -> bool
    ensures { result ≡ names.is_among texts.entry.now text.now }
{
    while let [first, rest @ ..] = texts {
        if text == first.as_str() {
            return true;
        }
        texts = rest;
    }
    false
}

fn is_text(value: &Value) -> bool
    ensures { result ≡ spec.is_text (view value.now) }
{
    matches!(value, Value::String(_))
}

fn is_table(value: &Value) -> bool
    ensures { result ≡ spec.is_table (view value.now) }
{
    matches!(value, Value::Table(_))
}

fn fits(kind: Kind, value: &Value) -> bool
    ensures { result ≡ test_of kind (view value.now) }
{
    match kind {
        Kind::Text => is_text(value),
        Kind::Table => is_table(value),
    }
}

fn all_fit(kind: Kind, mut values: &[Value]) -> bool
    ensures { result ≡ list_all (test_of kind) (all_data values.entry.now) }
{
    while let [value, rest @ ..] = values {
        if !fits(kind, value) {
            return false;
        }
        values = rest;
    }
    true
}

#[tactic(auto, using(cc_project::proofs::Values::length_of_data))]
fn is_list(least: usize, most: usize, kind: Kind, items: &[Value]) -> bool
    ensures { result ≡ spec.is_list least most (test_of kind) (all_data items.now) }
{
    least <= items.len() && items.len() <= most && all_fit(kind, items)
}

fn is_array(least: usize, most: usize, kind: Kind, value: &Value) -> bool
    ensures { result ≡ spec.is_array least most (test_of kind) (view value.now) }
{
    match value {
        Value::Array(items) => is_list(least, most, kind, items),
        _ => false,
    }
}

/// Whether the value is there, and an array of 1 to 64 tables.
pub fn is_device_array(value: Option<&Value>) -> bool
    ensures { result ≡ rule.is_device_array (data_in value.entry) }
{
    match value {
        Some(value) => is_array(1, 64, Kind::Table, value),
        None => false,
    }
}

/// Whether the value is missing, or an array of at most 256 strings.
pub fn is_function_array(value: Option<&Value>) -> bool
    ensures { result ≡ rule.is_function_array (data_in value.entry) }
{
    match value {
        Some(value) => is_array(0, 256, Kind::Text, value),
        None => true,
    }
}

// Whether the text is one of these keys.
fn is_key(mut keys: &[&str], text: &str) -> bool
    ensures { result ≡ names.is_among (map (λ key. key.now) keys.entry.now) text.now }
{
    while let [key, rest @ ..] = keys {
        if text == *key {
            return true;
        }
        keys = rest;
    }
    false
}

fn has_only_keys(table: &Table, keys: &[&str]) -> bool
    ensures { result ≡ list_all (names.is_among (map (λ key. key.now) keys.now)) (spec.keys_of (table_view table.now)) }
{
    let mut members = table.iter();
    while let Some((key, _)) = members.next() {
        if !is_key(keys, key.as_str()) {
            return false;
        }
    }
    true
}

/// Whether the value is a table without other keys than these.
pub fn has_only(value: &Value, keys: &[&str]) -> bool
    ensures { result ≡ spec.has_only (map (λ key. key.now) keys.now) (view value.now) }
{
    match value {
        Value::Table(table) => has_only_keys(table, keys),
        _ => false,
    }
}

// ---- Parts

/// The value at this key of a table.
pub fn at_key<'a>(value: &'a Value, key: &str) -> Option<&'a Value>
    ensures { data_in result ≡ get key.now (view value.now) }
{
    value.get(key)
}

/// The string, or the empty text.
pub fn text_of(value: &Value) -> &str
    ensures { result.now ≡ spec.text_of (view value.now) }
{
    match value {
        Value::String(text) => text.as_str(),
        _ => "",
    }
}

/// The string, or the empty text.
pub fn text_in(value: Option<&Value>) -> &str
    ensures { result.now ≡ spec.text_in (data_in value.entry) }
{
    match value {
        Some(value) => text_of(value),
        None => "",
    }
}

fn items_of(value: &Value) -> &[Value]
    ensures { all_data result.now ≡ spec.items_of (view value.now) }
{
    match value {
        Value::Array(items) => items.as_slice(),
        _ => &[],
    }
}

/// The items of an array, or none.
pub fn items_in(value: Option<&Value>) -> &[Value]
    ensures { all_data result.now ≡ spec.items_in (data_in value.entry) }
{
    match value {
        Some(value) => items_of(value),
        None => &[],
    }
}
