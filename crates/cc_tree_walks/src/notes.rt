// The note of each node.
ghost use Rattle.std.specs.Prelude.{◌≡◌, option_copied};
ghost use Rattle.cc_tree.specs.Views.{view, view_type, view_spec, view_member, view_constant, view_declarator, view_value, view_declaration, view_stmt, view_block, view_item, view_external};
ghost use Rattle.cc_tree_walks.specs.Notes as spec;

use cc_tree::{
    Block, Constant, Declaration, Declarator, Expr, External, Item, Member, Spec, Stmt, TypeName,
    Value,
};

/// The note of an expression (C17 6.5): in a tree as it is written, its spot.
pub fn expr_note<N>(e: &Expr<N>) -> &N
    ensures { result.now ≡ spec.expr_note (view e.now) }
{
    match e {
        Expr::Name(note, _)
        | Expr::Int(note, _, _)
        | Expr::Char(note, _)
        | Expr::Str(note, _)
        | Expr::Paren(note, _)
        | Expr::Unary(note, _, _)
        | Expr::Binary(note, _, _, _)
        | Expr::Assign(note, _, _, _)
        | Expr::Step(note, _, _, _)
        | Expr::Cond(note, _, _, _)
        | Expr::Comma(note, _, _)
        | Expr::Call(note, _, _)
        | Expr::Member(note, _, _)
        | Expr::Arrow(note, _, _)
        | Expr::Index(note, _, _)
        | Expr::Cast(note, _, _)
        | Expr::SizeExpr(note, _)
        | Expr::SizeType(note, _) => note,
    }
}

/// The note of a type name (C17 6.7.7) or a parameter.
pub fn type_note<N>(t: &TypeName<N>) -> &N
    ensures { result.now ≡ spec.type_note (view_type t.now) }
{
    &t.note
}

/// The note of a specifier (C17 6.7p1).
pub fn spec_note<N>(s: &Spec<N>) -> &N
    ensures { result.now ≡ spec.spec_note (view_spec s.now) }
{
    match s {
        Spec::Word(note, _)
        | Spec::Named(note, _)
        | Spec::Struct(note, _, _)
        | Spec::Enum(note, _, _, _) => note,
    }
}

/// The note of members that are declared together (C17 6.7.2.1).
pub fn member_note<N>(m: &Member<N>) -> &N
    ensures { result.now ≡ spec.member_note (view_member m.now) }
{
    &m.note
}

/// The note of an enumeration constant (C17 6.7.2.2).
pub fn constant_note<N>(c: &Constant<N>) -> &N
    ensures { result.now ≡ spec.constant_note (view_constant c.now) }
{
    &c.note
}

/// The note of a declarator's outermost form (C17 6.7.6), or `None` where no declarator is written.
pub fn declarator_note<N>(d: &Declarator<N>) -> Option<&N>
    ensures { option_copied result ≡ spec.declarator_note (view_declarator d.now) }
{
    match d {
        Declarator::Name(note, _)
        | Declarator::Pointer(note, _, _)
        | Declarator::Array(note, _, _)
        | Declarator::Func(note, _, _)
        | Declarator::Paren(note, _) => Some(note),
        Declarator::Nameless => None,
    }
}

/// The note of an initialiser (C17 6.7.9): one without braces has its expression's.
pub fn value_note<N>(v: &Value<N>) -> &N
    ensures { result.now ≡ spec.value_note (view_value v.now) }
{
    match v {
        Value::Expr(e) => expr_note(e),
        Value::List(note, _, _) => note,
    }
}

/// The note of a declaration (C17 6.7).
pub fn declaration_note<N>(d: &Declaration<N>) -> &N
    ensures { result.now ≡ spec.declaration_note (view_declaration d.now) }
{
    &d.note
}

/// The note of a statement (C17 6.8): a compound one has its block's.
pub fn stmt_note<N>(s: &Stmt<N>) -> &N
    ensures { result.now ≡ spec.stmt_note (view_stmt s.now) }
{
    match s {
        Stmt::Block(b) => block_note(b),
        Stmt::Plain(note, _)
        | Stmt::Empty(note)
        | Stmt::If(note, _, _)
        | Stmt::IfElse(note, _, _, _)
        | Stmt::Switch(note, _, _)
        | Stmt::While(note, _, _)
        | Stmt::Do(note, _, _)
        | Stmt::For(note, _, _, _, _)
        | Stmt::Break(note)
        | Stmt::Continue(note)
        | Stmt::Return(note, _) => note,
    }
}

/// The note of a block (C17 6.8.2).
pub fn block_note<N>(b: &Block<N>) -> &N
    ensures { result.now ≡ spec.block_note (view_block b.now) }
{
    &b.note
}

/// The note of what stands in a block: that of the declaration, the statement or the label.
pub fn item_note<N>(i: &Item<N>) -> &N
    ensures { result.now ≡ spec.item_note (view_item i.now) }
{
    match i {
        Item::Decl(d) => declaration_note(d),
        Item::Case(note, _) | Item::Default(note) => note,
        Item::Stmt(s) => stmt_note(s),
    }
}

/// The note of a declaration or a function in a file (C17 6.9). The file itself has none.
pub fn external_note<N>(x: &External<N>) -> &N
    ensures { result.now ≡ spec.external_note (view_external x.now) }
{
    match x {
        External::Declaration(d) => declaration_note(d),
        External::Function(f) => &f.note,
    }
}
