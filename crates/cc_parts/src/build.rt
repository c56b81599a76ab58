// The parts of an object of a type.
ghost use Rattle.std.specs.Prelude.{◌≡◌, ◌++◌, length, OnOk};
ghost use Rattle.cc_parts.specs.Putting as put;
ghost use Rattle.cc_parts.specs.TypeParts as spec;

use crate::part::{Form, Part};
use cc_base::Memory;
use cc_symbols::Slots;
use cc_tree::StructId;
use cc_types::{Member, Shape, Structs, TypeId, TypeTable};

// Puts a part that is made of no other one at the end.
fn put_leaf(parts: &mut Slots<Part>, object: u32, in_array: bool, form: Form) -> Result<(), Memory>
    ensures { OnOk result (parts.new ≡ put.with_leaf object form in_array parts.old) }
{
    parts.push(Part {
        object,
        form,
        in_array,
        size: 1,
    })
}

// Says of the part at `start` that it is made of all parts from there on.
fn close(
    parts: &mut Slots<Part>,
    start: u32,
    object: u32,
    in_array: bool,
    form: Form,
) -> Result<(), Memory>
    ensures { OnOk result (parts.new ≡ put.closed start object form in_array parts.old) }
{
    let end = parts.count()?;
    let size = end.saturating_sub(start);
    parts.put(
        start,
        Part {
            object,
            form,
            in_array,
            size,
        },
    );
    Ok(())
}

#[cycle(parts)]
fn put_members(
    parts: &mut Slots<Part>,
    table: &TypeTable,
    structs: &Structs,
    object: u32,
    depth: u32,
    in_array: bool,
    members: &[Member],
) -> Result<(), Memory>
    ensures { OnOk result (parts.new
        ≡ put.with_members (put.with_parts table.now structs.now object depth in_array) members.now parts.old) }
{
    for member in members {
        put_type(parts, table, structs, object, depth, in_array, member.kind)?;
    }
    Ok(())
}

#[cycle(parts)]
fn put_struct(
    parts: &mut Slots<Part>,
    table: &TypeTable,
    structs: &Structs,
    object: u32,
    depth: u32,
    in_array: bool,
    id: StructId,
) -> Result<(), Memory>
    ensures { OnOk result (parts.new ≡ put.with_struct table.now structs.now object depth in_array id parts.old) }
{
    let start = parts.count()?;
    put_leaf(parts, object, in_array, Form::Other)?;
    put_members(
        parts,
        table,
        structs,
        object,
        depth,
        in_array,
        structs.members(id),
    )?;
    close(parts, start, object, in_array, Form::Struct(id))
}

#[cycle(parts)]
fn put_array(
    parts: &mut Slots<Part>,
    table: &TypeTable,
    structs: &Structs,
    object: u32,
    depth: u32,
    in_array: bool,
    element: TypeId,
) -> Result<(), Memory>
    ensures { OnOk result (parts.new ≡ put.with_array table.now structs.now object depth in_array element parts.old) }
{
    let start = parts.count()?;
    put_leaf(parts, object, in_array, Form::Other)?;
    put_type(parts, table, structs, object, depth, true, element)?;
    close(parts, start, object, in_array, Form::Array)
}

#[cycle(parts)]
fn put_shape(
    parts: &mut Slots<Part>,
    table: &TypeTable,
    structs: &Structs,
    object: u32,
    depth: u32,
    in_array: bool,
    shape: Shape,
) -> Result<(), Memory>
    ensures { OnOk result (parts.new ≡ put.with_shape table.now structs.now object depth in_array shape parts.old) }
{
    match shape {
        Shape::Array(_, element, _) => put_array(
            parts, table, structs, object, depth, in_array, element,
        ),
        Shape::Struct(_, id) => put_struct(parts, table, structs, object, depth, in_array, id),
        Shape::Pointer(_, _) => put_leaf(parts, object, in_array, Form::Pointer),
        Shape::Integer(_, _) => put_leaf(parts, object, in_array, Form::Number),
        _ => put_leaf(parts, object, in_array, Form::Other),
    }
}

#[cycle(parts)]
fn put_type(
    parts: &mut Slots<Part>,
    table: &TypeTable,
    structs: &Structs,
    object: u32,
    depth: u32,
    in_array: bool,
    kind: TypeId,
) -> Result<(), Memory>
    ensures { OnOk result (parts.new ≡ put.with_parts table.now structs.now object depth in_array kind parts.old) }
{
    if depth == 0 {
        return put_leaf(parts, object, in_array, Form::Other);
    }
    put_shape(
        parts,
        table,
        structs,
        object,
        depth - 1,
        in_array,
        table.shape(kind),
    )
}

/// Puts the parts of an object of a type at the end. The object's number and whether it stands in an array itself go into
/// each part. Types may stand `depth` deep in one another; what is deeper is one part. Fails where memory is wanting.
pub fn put_parts(
    parts: &mut Slots<Part>,
    table: &TypeTable,
    structs: &Structs,
    object: u32,
    depth: u32,
    in_array: bool,
    kind: TypeId,
) -> Result<(), Memory>
    ensures { OnOk result (parts.new ≡ parts.old ++ spec.parts_of table.now structs.now object depth in_array kind) }
{
    put_type(parts, table, structs, object, depth, in_array, kind)?;
    Ok(())
}
