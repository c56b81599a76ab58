// The types of a few declarations, worked out by hand.
use cc_arith::IntKind;
use cc_base::{List, Memory, Text};
use cc_tree::StructId;
use cc_types::{Depths, ExprType, Member, MemberList, Shape, Structs, TypeId, TypeTable};
use std::alloc::Global;
use std::test::Fail;

const INT: Shape = Shape::Integer(false, IntKind::Int);

const CHAR: Shape = Shape::Integer(false, IntKind::Char);

fn plain(a: Shape) -> ExprType {
    ExprType::Plain(a)
}

// `const int[3]` from its element, and from `int[3]` made const, are one type; `int[3]` is another.
fn const_arrays_are_one(alloc: Global) -> Result<bool, Memory> {
    let mut table = TypeTable::new(alloc);
    let int = table.intern(INT)?;
    let const_int = table.also_const(true, int)?;
    let of_const = table.array(const_int, Some(3))?;
    let array = table.array(int, Some(3))?;
    let const_array = table.also_const(true, array)?;
    Ok(of_const == const_array && of_const != array && table.shape(int) == INT)
}

// `int (const int)` and `int (int)` are one type, `int (char)` is another.
fn functions_are_one(alloc: Global) -> Result<bool, Memory> {
    let mut table = TypeTable::new(alloc);
    let int = table.intern(INT)?;
    let char = table.intern(CHAR)?;
    let const_int = table.also_const(true, int)?;
    let function = table.function(int)?;
    let with_const = table.taking(const_int, function)?;
    let with_int = table.taking(int, function)?;
    let with_char = table.taking(char, function)?;
    Ok(with_const == with_int && with_const != with_char && table.shape(with_int).is_function())
}

// A declaration of `int[]` goes with one of `int[3]`, and the length stays; `int[4]` doesn't go with it.
fn lengths_are_composed(alloc: Global) -> Result<bool, Memory> {
    let mut table = TypeTable::new(alloc);
    let int = table.intern(INT)?;
    let open = table.array(int, None)?;
    let three = table.array(int, Some(3))?;
    let four = table.array(int, Some(4))?;
    let goes = table.compatible(open, three) && !table.compatible(three, four);
    Ok(goes && table.composed(open, three) == three && table.composed(three, open) == three)
}

// A value of `const int[3]` is a `const int *`: it fits a pointer to `const int`, and none to `int`.
fn elements_stay_const(alloc: Global) -> Result<bool, Memory> {
    let mut table = TypeTable::new(alloc);
    let structs = Structs::new(alloc);
    let int = table.intern(INT)?;
    let const_int = table.also_const(true, int)?;
    let array = table.array(const_int, Some(3))?;
    let value = table.value(plain(table.shape(array)));
    let to_int = plain(Shape::Pointer(false, int));
    let to_const = plain(Shape::Pointer(false, const_int));
    let fits = table.fits(&structs, value, false, to_const)
        && !table.fits(&structs, value, false, to_int);
    Ok(fits && table.point_alike(value, to_int) && !table.point_at_one(value, to_int))
}

fn kinds_are_told(alloc: Global) -> bool {
    let table = TypeTable::new(alloc);
    let long = plain(Shape::Integer(true, IntKind::Long));
    let kinds = table.promoted_kind(plain(CHAR)) == Some(IntKind::Int)
        && table.common_kind(plain(INT), long) == Some(IntKind::Long)
        && table.kind(long) == Some(IntKind::Long);
    let asked = table.is_integer(long) && table.is_scalar(long) && table.is_const(long);
    kinds && asked && table.is_object(long) && !table.is_pointer(long) && !table.is_void(long)
}

fn pointers_are_told(alloc: Global) -> Result<bool, Memory> {
    let mut table = TypeTable::new(alloc);
    let structs = Structs::new(alloc);
    let int = table.intern(INT)?;
    let pointer = plain(Shape::Pointer(false, int));
    let void_pointer = ExprType::Address(Shape::Void(false));
    let asked = table.points_to_object(pointer) && !table.points_to_object(void_pointer);
    let to_const = ExprType::Address(INT.also_const(true).with_const(true));
    let may = table.may_point_at(pointer, to_const) && !table.may_point_at(to_const, pointer);
    let fits = table.fits(&structs, void_pointer, true, pointer);
    Ok(asked && may && fits && table.pointee(pointer) == Some(INT.unqualified()))
}

#[test]
fn types(rt: HostRuntime) -> Result<(), Fail> {
    assert!(rt; const_arrays_are_one(rt.alloc())?);
    assert!(rt; functions_are_one(rt.alloc())?);
    assert!(rt; lengths_are_composed(rt.alloc())?);
    Ok(())
}

#[test]
fn questions(rt: HostRuntime) -> Result<(), Fail> {
    assert!(rt; elements_stay_const(rt.alloc())?);
    assert!(rt; kinds_are_told(rt.alloc()));
    assert!(rt; pointers_are_told(rt.alloc())?);
    Ok(())
}

// A project's types and structs.
#[derive(Drop)]
struct World {
    table: TypeTable,
    structs: Structs,
    depths: Depths,
}

fn member(alloc: Global, name: &str, kind: TypeId) -> Result<Member, Memory> {
    let name = Text::new(String::from_str(alloc, name)?);
    Ok(Member { name, kind })
}

fn two(alloc: Global, first: Member, second: Member) -> Result<MemberList, Memory> {
    let mut members = List::new(alloc);
    members.push(first)?;
    members.push(second)?;
    Ok(members)
}

// The types of the members of `struct node { int n; struct node *next; }`, with the struct itself.
fn kinds(alloc: Global, world: &mut World) -> Result<(StructId, TypeId, TypeId), Memory> {
    let id = world.structs.add(alloc, true, 7)?;
    let itself = world.table.intern(Shape::Struct(false, id))?;
    let next = world.table.intern(Shape::Pointer(false, itself))?;
    let int = world.table.intern(INT)?;
    world.depths.catch_up(&world.table, &world.structs)?;
    Ok((id, int, next))
}

fn node(alloc: Global, world: &mut World) -> Result<StructId, Memory> {
    let (id, int, next) = kinds(alloc, world)?;
    let first = member(alloc, "n", int)?;
    let second = member(alloc, "next", next)?;
    let members = two(alloc, first, second)?;
    world
        .structs
        .complete(&world.table, &world.depths, id, members);
    Ok(id)
}

fn new_world(alloc: Global) -> World {
    World {
        table: TypeTable::new(alloc),
        structs: Structs::new(alloc),
        depths: Depths::new(alloc),
    }
}

// Two cells, `n` at 0 and `next` at 8; an array of two has twice as much.
fn nodes_are_measured(alloc: Global) -> Result<bool, Memory> {
    let mut world = new_world(alloc);
    let id = node(alloc, &mut world)?;
    let one = world
        .structs
        .measure(&world.table, Shape::Struct(false, id));
    let kind = world.table.intern(Shape::Struct(false, id))?;
    let both = world
        .structs
        .measure(&world.table, Shape::Array(false, kind, Some(2)));
    let is_one = one.is_complete && one.cells == 2 && one.size == 16 && one.alignment == 8;
    Ok(is_one && both.cells == 4 && both.size == 32 && !one.has_const_part)
}

fn nodes_have_members(alloc: Global) -> Result<bool, Memory> {
    let mut world = new_world(alloc);
    let id = node(alloc, &mut world)?;
    let (structs, table) = (&world.structs, &world.table);
    let is_known = structs.is_complete(id) && structs.is_tagged(id) && structs.token(id) == 7;
    let named = match structs.member(id, "n") {
        Some((place, kind)) => place == 0 && table.shape(kind) == INT,
        None => false,
    };
    let t = plain(Shape::Struct(false, id));
    Ok(is_known && named && structs.members(id).len() == 2 && table.fits(structs, t, false, t))
}

// The pointer to the struct, which has a tag, is 2 deep, so the struct is 3; an array of it 4.
fn nodes_are_deep(alloc: Global) -> Result<bool, Memory> {
    let mut world = new_world(alloc);
    let id = node(alloc, &mut world)?;
    let kind = world.table.intern(Shape::Struct(false, id))?;
    let array = world.table.array(kind, Some(2))?;
    world.depths.catch_up(&world.table, &world.structs)?;
    let shape = world.table.shape(array);
    let deep = world.depths.depth(&world.structs, shape);
    Ok(deep.whole == 4 && deep.inside == 2)
}

#[test]
fn structs(rt: HostRuntime) -> Result<(), Fail> {
    assert!(rt; nodes_are_measured(rt.alloc())?);
    assert!(rt; nodes_have_members(rt.alloc())?);
    assert!(rt; nodes_are_deep(rt.alloc())?);
    Ok(())
}
