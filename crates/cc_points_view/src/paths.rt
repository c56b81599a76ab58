// The pointers in each struct type.
ghost use Rattle.std.specs.Prelude.{◌≡◌, ◌<◌, ◌^◌, length, OnOk};
ghost use Rattle.cc_points_view.specs.Paths as spec;

use crate::functions::Tables;
use cc_arena::Span;
use cc_base::Memory;
use cc_parts::{Form, Part};
use cc_symbols::Slots;

fn put_offset(lists: &mut Slots<u32>, form: Form, offset: u32) -> Result<(), Memory>
    ensures { OnOk result (lists.new ≡ spec.with_offset form offset lists.old) }
{
    match form {
        Form::Pointer => lists.push(offset),
        _ => Ok(()),
    }
}

// Puts the places of the pointers among these parts at the end.
fn put_offsets(lists: &mut Slots<u32>, parts: &[Part]) -> Result<(), Memory>
    requires { length parts.now < 2 ^ 32 }
    ensures { OnOk result (lists.new ≡ spec.with_offsets parts.now 0 lists.old) }
{
    let mut offset: u32 = 0;
    for part in parts {
        put_offset(lists, part.form, offset)?;
        offset += 1;
    }
    Ok(())
}

// The first of these parts, so many; none where there aren't so many.
fn first_parts(parts: &[Part], size: u32) -> &[Part]
    ensures parts { result.now ≡ spec.first_parts parts.now size }
    ensures few { length result.now < 2 ^ 32 }
{
    let size = size as usize;
    if size <= parts.len() {
        &parts[..size]
    } else {
        &[]
    }
}

// Whether the pointers of a struct type are known.
fn is_known(paths: &Slots<Option<Span>>, id: u32) -> bool
    ensures { result ≡ spec.is_known paths.now id }
{
    match paths.get(id) {
        Some(Some(_)) => true,
        _ => false,
    }
}

fn put_struct(tables: &mut Tables, id: u32, parts: &[Part]) -> Result<(), Memory>
    requires { length parts.now < 2 ^ 32 }
    ensures { OnOk result (tables.new ≡ spec.with_struct id parts.now tables.old) }
{
    let start = tables.lists.count()?;
    put_offsets(&mut tables.lists, parts)?;
    let end = tables.lists.count()?;
    tables.paths.put_far(id, Some(Span { start, end }), None)
}

// Notes the pointers of the struct type that the first of these parts has, if it has one of which they aren't known.
fn put_part(tables: &mut Tables, form: Form, size: u32, parts: &[Part]) -> Result<(), Memory>
    ensures { OnOk result (tables.new ≡ spec.with_part form size parts.now tables.old) }
{
    match form {
        Form::Struct(id) => {
            if is_known(&tables.paths, id.0) {
                Ok(())
            } else {
                put_struct(tables, id.0, first_parts(parts, size))
            }
        }
        _ => Ok(()),
    }
}

/// Notes the pointers of each struct type of which a part is. Fails where memory is wanting.
pub fn put_paths(tables: &mut Tables, parts: &[Part]) -> Result<(), Memory>
    ensures { OnOk result (tables.new ≡ spec.with_paths parts.now tables.old) }
{
    for (q, part) in parts.iter().enumerate() {
        put_part(tables, part.form, part.size, &parts[q..])?;
    }
    Ok(())
}
