// What kind of expression one is, and where it begins.
ghost use Rattle.std.specs.Prelude.{◌≡◌};
ghost use Rattle.cc_grammar.specs.Levels as grammar_levels;
ghost use Rattle.cc_grammar.specs.Outlines as outlines;
ghost use Rattle.cc_tree.specs.Views.{view};

use cc_base::Spot;
use cc_parse_tokens::{binary_level, levels};
use cc_tree::{Expr, Side};

/// The level of an expression: the greater, the tighter it holds together (C17 6.5).
pub fn level<N>(e: &Expr<N>) -> u8
    ensures { result ≡ grammar_levels.level (view e.now) }
{
    match e {
        Expr::Name(_, _) | Expr::Int(_, _, _) | Expr::Char(_, _) | Expr::Str(_, _) =>
            levels::POSTFIX,
        Expr::Paren(_, _) | Expr::Call(_, _, _) | Expr::Member(_, _, _) => levels::POSTFIX,
        Expr::Arrow(_, _, _) | Expr::Index(_, _, _) | Expr::Step(_, _, Side::After, _) =>
            levels::POSTFIX,
        Expr::Step(_, _, Side::Before, _) | Expr::Unary(_, _, _) => levels::UNARY,
        Expr::SizeExpr(_, _) | Expr::SizeType(_, _) => levels::UNARY,
        Expr::Cast(_, _, _) => levels::CAST,
        Expr::Binary(_, op, _, _) => binary_level(*op),
        Expr::Cond(_, _, _, _) => levels::CONDITIONAL,
        Expr::Assign(_, _, _, _) => levels::ASSIGNMENT,
        Expr::Comma(_, _, _) => levels::COMMA,
    }
}

/// Where an expression begins: at the spot of its first token.
pub fn begins(e: &Expr<Spot>) -> Spot
    ensures { result ≡ outlines.begins (view e.now) }
{
    match e {
        Expr::Name(note, _) | Expr::Int(note, _, _) | Expr::Char(note, _) => *note,
        Expr::Str(note, _) | Expr::Paren(note, _) | Expr::Unary(note, _, _) => *note,
        Expr::Step(note, _, Side::Before, _) | Expr::Call(note, _, _) => *note,
        Expr::Cast(note, _, _) | Expr::SizeExpr(note, _) | Expr::SizeType(note, _) => *note,
        Expr::Step(_, _, Side::After, e) | Expr::Member(_, e, _) => begins(e.get()),
        Expr::Arrow(_, e, _) | Expr::Index(_, e, _) | Expr::Comma(_, e, _) => begins(e.get()),
        Expr::Binary(_, _, e, _) | Expr::Assign(_, _, e, _) => begins(e.get()),
        Expr::Cond(_, e, _, _) => begins(e.get()),
    }
}
