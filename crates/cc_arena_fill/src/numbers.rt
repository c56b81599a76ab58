// The numbers of parts, read from their notes.
ghost use Rattle.std.specs.Prelude.{◌≡◌, option_map};
ghost use Rattle.cc_tree.specs.Views.{view, view_type, view_member, view_constant, view_declarator, view_value, view_declaration, view_start, view_stmt, view_block, view_item, option_of};
ghost use Rattle.cc_arena_fill.specs.Numbers as spec;

use cc_tree::{
    Block, Constant, Declaration, Declarator, Expr, ForStart, Item, Member, Stmt, TypeName, Value,
};
use cc_tree_notes::Counted;
use sqlite_items::Boxed;

pub(crate) fn number(e: &Expr<Counted>) -> u32
    ensures { result ≡ spec.number_of (view e.now) }
{
    match e {
        Expr::Name(note, _)
        | Expr::Int(note, _, _)
        | Expr::Char(note, _)
        | Expr::Str(note, _)
        | Expr::Paren(note, _)
        | Expr::Unary(note, _, _)
        | Expr::Binary(note, _, _, _)
        | Expr::Assign(note, _, _, _)
        | Expr::Step(note, _, _, _)
        | Expr::Cond(note, _, _, _)
        | Expr::Comma(note, _, _)
        | Expr::Call(note, _, _)
        | Expr::Member(note, _, _)
        | Expr::Arrow(note, _, _)
        | Expr::Index(note, _, _)
        | Expr::Cast(note, _, _)
        | Expr::SizeExpr(note, _)
        | Expr::SizeType(note, _) => note.number,
    }
}

pub(crate) fn option_number(e: &Option<Boxed<Expr<Counted>>>) -> Option<u32>
    ensures { result ≡ spec.option_number (option_of e.now) }
{
    match e {
        None => None,
        Some(e) => Some(number(e.get())),
    }
}

pub(crate) fn clause_number(e: &Option<Expr<Counted>>) -> Option<u32>
    ensures { result ≡ spec.clause_number (option_map view e.now) }
{
    match e {
        None => None,
        Some(e) => Some(number(e)),
    }
}

pub(crate) fn type_number(t: &TypeName<Counted>) -> u32
    ensures { result ≡ spec.type_number (view_type t.now) }
{
    t.note.number
}

pub(crate) fn member_number(m: &Member<Counted>) -> u32
    ensures { result ≡ spec.member_number (view_member m.now) }
{
    m.note.number
}

pub(crate) fn constant_number(c: &Constant<Counted>) -> u32
    ensures { result ≡ spec.constant_number (view_constant c.now) }
{
    c.note.number
}

// The number of a declarator's outermost node, if it has one.
pub(crate) fn declarator_number(d: &Declarator<Counted>) -> Option<u32>
    ensures { result ≡ spec.declarator_number (view_declarator d.now) }
{
    match d {
        Declarator::Name(note, _)
        | Declarator::Pointer(note, _, _)
        | Declarator::Array(note, _, _)
        | Declarator::Func(note, _, _)
        | Declarator::Paren(note, _) => Some(note.number),
        Declarator::Nameless => None,
    }
}

pub(crate) fn value_number(v: &Value<Counted>) -> u32
    ensures { result ≡ spec.value_number (view_value v.now) }
{
    match v {
        Value::Expr(e) => number(e),
        Value::List(note, _, _) => note.number,
    }
}

pub(crate) fn given_number(v: &Option<Value<Counted>>) -> Option<u32>
    ensures { result ≡ spec.given_number (option_map view_value v.now) }
{
    match v {
        None => None,
        Some(v) => Some(value_number(v)),
    }
}

pub(crate) fn declaration_number(d: &Declaration<Counted>) -> u32
    ensures { result ≡ spec.declaration_number (view_declaration d.now) }
{
    d.note.number
}

pub(crate) fn start_number(start: &ForStart<Counted>) -> Option<u32>
    ensures { result ≡ spec.start_number (view_start start.now) }
{
    match start {
        ForStart::Decl(d) => Some(declaration_number(d)),
        ForStart::Expr(e) => Some(number(e)),
        ForStart::Empty => None,
    }
}

pub(crate) fn block_number(b: &Block<Counted>) -> u32
    ensures { result ≡ spec.block_number (view_block b.now) }
{
    b.note.number
}

pub(crate) fn stmt_number(s: &Stmt<Counted>) -> u32
    ensures { result ≡ spec.stmt_number (view_stmt s.now) }
{
    match s {
        Stmt::Block(b) => block_number(b),
        Stmt::Plain(note, _)
        | Stmt::Empty(note)
        | Stmt::If(note, _, _)
        | Stmt::IfElse(note, _, _, _)
        | Stmt::Switch(note, _, _)
        | Stmt::While(note, _, _)
        | Stmt::Do(note, _, _)
        | Stmt::For(note, _, _, _, _)
        | Stmt::Break(note)
        | Stmt::Continue(note)
        | Stmt::Return(note, _) => note.number,
    }
}

pub(crate) fn item_number(i: &Item<Counted>) -> u32
    ensures { result ≡ spec.item_number (view_item i.now) }
{
    match i {
        Item::Decl(d) => declaration_number(d),
        Item::Case(note, _) | Item::Default(note) => note.number,
        Item::Stmt(s) => stmt_number(s),
    }
}

// The number of the name's node in a declarator, and `up` where there is no name.
pub(crate) fn name_number(d: &Declarator<Counted>, up: u32) -> u32
    ensures { result ≡ spec.name_number (view_declarator d.now) up }
{
    match d {
        Declarator::Name(note, _) => note.number,
        Declarator::Nameless => up,
        Declarator::Pointer(_, _, d)
        | Declarator::Array(_, d, _)
        | Declarator::Func(_, d, _)
        | Declarator::Paren(_, d) => name_number(d.get(), up),
    }
}
