// The first form of a project file.
ghost use Rattle.std.specs.Prelude.{◌≡◌, ◌≢◌, ◌↔◌, ℕ, List, Some, true, IsTrue, IfNone, IfOk, IfSome};
ghost use Rattle.std.specs.List.{list_all};
ghost use Rattle.std.specs.Str.{IsUtf8};
ghost use Rattle.toml.specs.Parse.{parse_document};
ghost use Rattle.toml.specs.View.{view, table_view};
ghost use Rattle.cc_first.specs.Names.{in_name, in_file_name, is_name, is_file_name, begins_up, has_part_up};
ghost use Rattle.cc_first.specs.Project.{IsComponent, IsProject, IsWell, Component as ComponentData, Project as ProjectData};
ghost use Rattle.cc_first.specs.Project.{one_text, component_table, project_members};
ghost use Rattle.cc_first.specs.Views.{component_view, project_view};

use crate::token::is_identifier;
use cc_lex::is_keyword;
use std::alloc::{AllocError, Global};
use toml::{Table, Value};

// The most bytes that the name of a component, and that of a file, may have.
const NAME_LIMIT: usize = 64;

const FILE_NAME_LIMIT: usize = 200;

/// A component of one file, as the project file writes both.
#[derive(Clone, Copy)]
pub struct Component<'a> {
    pub name: &'a str,
    pub file: &'a str,
}

/// What a project file of the first form says: the entry function's name, and the components in their order.
#[derive(Clone, Copy)]
pub struct Project<'a> {
    pub entry: &'a str,
    pub first: Component<'a>,
    pub second: Component<'a>,
}

/// The document of the bytes, or none where they are no UTF-8 or no TOML document. The error is want of memory.
pub fn read_document(alloc: Global, bytes: &[u8]) -> Result<Option<Table>, AllocError>
    ensures some { IfOk result (λ read. IfSome read (λ table.
        IsUtf8 bytes.now × (parse_document bytes.now ≡ Some (table_view table)))) }
    ensures none { IfOk result (λ read. IfNone read (
        (project : ProjectData) → IsProject bytes.now project → ⊥)) }
{
    match toml::table_from_slice(alloc, bytes) {
        Ok(table) => Ok(Some(table)),
        Err(e) => {
            if e.is_memory() {
                Err(AllocError)
            } else {
                Ok(None)
            }
        }
    }
}

/// What the document says, if it has exactly these keys: `format`, the integer 1; `entries`, an array of one C
/// identifier that is no keyword; and `component`, an array of two tables with exactly `name`, a name, and `files`,
/// an array of one file name. The two names differ, and so do the two files.
pub fn read_project(document: &Table) -> Option<Project<'_>>
    ensures some { IfSome result (λ project.
        (table_view document.now ≡ project_members (project_view project))
        × IsWell (project_view project)) }
    ensures none { IfNone result (
        (project : ProjectData) → table_view document.now ≡ project_members project
        → IsWell project → ⊥) }
{
    let project = read_shape(document)?;
    if is_well(&project) {
        Some(project)
    } else {
        None
    }
}

// Whether the texts of the project are of their kinds.
fn is_well(project: &Project<'_>) -> bool
    ensures { IsTrue result ↔ IsWell (project_view project.now) }
{
    is_identifier(project.entry.as_bytes())
        && !is_keyword(project.entry.as_bytes())
        && is_component(&project.first)
        && is_component(&project.second)
        && project.first.name != project.second.name
        && project.first.file != project.second.file
}

fn is_component(component: &Component<'_>) -> bool
    ensures { IsTrue result ↔ IsComponent (component_view component.now) }
{
    is_name(component.name.as_bytes()) && is_file_name(component.file.as_bytes())
}

// A byte of a component's name.
fn in_name(byte: u8) -> bool
    ensures { result ≡ in_name byte }
{
    byte.is_ascii_alphanumeric() || byte == b'_' || byte == b'-'
}

// A byte of a file's name.
fn in_file_name(byte: u8) -> bool
    ensures { result ≡ in_file_name byte }
{
    in_name(byte) || byte == b'.' || byte == b'/'
}

fn are_in_name(text: &[u8]) -> bool
    ensures { result ≡ list_all in_name text.now }
{
    text.iter().all(|byte| in_name(*byte))
}

fn are_in_file_name(text: &[u8]) -> bool
    ensures { result ≡ list_all in_file_name text.now }
{
    text.iter().all(|byte| in_file_name(*byte))
}

// 1 to 64 bytes of letters, digits, `_` and `-`, beginning with a letter.
#[tactic(auto, using(crate::proofs::ProjectNames::name_parts))]
fn is_name(text: &[u8]) -> bool
    ensures { result ≡ is_name text.now }
{
    match text.first() {
        Some(first) => {
            first.is_ascii_alphabetic() && text.len() <= NAME_LIMIT && are_in_name(text)
        }
        None => false,
    }
}

// 1 to 200 bytes of letters, digits, `_`, `-`, `.` and `/`, not beginning with `/` and without a part `..`.
#[tactic(auto, using(crate::proofs::ProjectNames::file_name_parts))]
fn is_file_name(text: &[u8]) -> bool
    ensures { result ≡ is_file_name text.now }
{
    match text.first() {
        Some(first) => {
            *first != b'/'
                && text.len() <= FILE_NAME_LIMIT
                && are_in_file_name(text)
                && !has_part_up(text)
        }
        None => false,
    }
}

// Whether the text begins with the part `..`.
fn begins_up(text: &[u8]) -> bool
    ensures { result ≡ begins_up text.now }
{
    matches!(text, [b'.', b'.'] | [b'.', b'.', b'/', ..])
}

// Whether one of the parts between slashes is `..`.
fn has_part_up(text: &[u8]) -> bool
    ensures { result ≡ has_part_up true text.now }
{
    let mut begins = true;
    for i in 0..text.len() {
        if begins && begins_up(&text[i..]) {
            return true;
        }
        begins = text[i] == b'/';
    }
    false
}

// The text of an array of one string.
fn only_text(value: &Value) -> Option<&str>
    ensures some { IfSome result (λ text. view value.now ≡ one_text text.now) }
    ensures none { IfNone result ((text : List ℕ) → view value.now ≢ one_text text) }
{
    let Value::Array(items) = value else {
        return None;
    };
    let mut items = items.iter();
    let Some(item) = items.next() else {
        return None;
    };
    if items.next().is_some() {
        return None;
    }
    let Value::String(text) = item else {
        return None;
    };
    Some(text.as_str())
}

// The name and the file of a table with exactly these.
fn read_component(value: &Value) -> Option<Component<'_>>
    ensures some { IfSome result (λ component. view value.now ≡ component_table (component_view component)) }
    ensures none { IfNone result ((component : ComponentData) → view value.now ≢ component_table component) }
{
    let Value::Table(table) = value else {
        return None;
    };
    let mut members = table.iter();
    let Some((files_key, files)) = members.next() else {
        return None;
    };
    let Some((name_key, name)) = members.next() else {
        return None;
    };
    if members.next().is_some() {
        return None;
    }
    if files_key.as_str() != "files" {
        return None;
    }
    if name_key.as_str() != "name" {
        return None;
    }
    let Value::String(name) = name else {
        return None;
    };
    let file = only_text(files)?;
    Some(Component {
        name: name.as_str(),
        file,
    })
}

// The texts of a document with exactly the keys of the first form.
fn read_shape(document: &Table) -> Option<Project<'_>>
    ensures some { IfSome result (λ project. table_view document.now ≡ project_members (project_view project)) }
    ensures none { IfNone result ((project : ProjectData) → table_view document.now ≢ project_members project) }
{
    let mut members = document.iter();
    let Some((component_key, components)) = members.next() else {
        return None;
    };
    let Some((entries_key, entries)) = members.next() else {
        return None;
    };
    let Some((format_key, format)) = members.next() else {
        return None;
    };
    if members.next().is_some() {
        return None;
    }
    if component_key.as_str() != "component" {
        return None;
    }
    if entries_key.as_str() != "entries" {
        return None;
    }
    if format_key.as_str() != "format" {
        return None;
    }
    let Value::Integer(1) = format else {
        return None;
    };
    let Value::Array(components) = components else {
        return None;
    };
    let mut components = components.iter();
    let Some(first) = components.next() else {
        return None;
    };
    let Some(second) = components.next() else {
        return None;
    };
    if components.next().is_some() {
        return None;
    }
    let entry = only_text(entries)?;
    let first = read_component(first)?;
    let second = read_component(second)?;
    Some(Project {
        entry,
        first,
        second,
    })
}
