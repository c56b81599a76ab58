// The tables of tokens: which class a punctuator or keyword is of.
ghost use Rattle.std.specs.Prelude.{◌≡◌, ◌<◌, ◌≤◌};
ghost use Rattle.cc_grammar.specs.Classes as grammar;
ghost use Rattle.cc_grammar.specs.Levels as grammar_levels;
ghost use Rattle.cc_parse_tokens.specs.Classes.{class_of_start, class_of_spec, tail_of, stmt_of};

use crate::class::{SpecStart, Start, StmtStart, Tail};
use crate::levels;
use cc_arith::{IntOp, IntUnary};
use cc_lex::{Keyword, Punct};
use cc_tree::{AssignOp, BinaryOp, SpecWord, StepOp, UnaryOp};

/// How an expression begins with this punctuator (C17 6.5.1, 6.5.3).
pub fn start_punct(punct: Punct) -> Start
    ensures { result ≡ class_of_start (grammar.start_punct punct) }
{
    match punct {
        Punct::LeftParen => Start::Paren,
        Punct::And => Start::Unary(UnaryOp::Address),
        Punct::Star => Start::Unary(UnaryOp::Deref),
        Punct::Plus => Start::Unary(UnaryOp::Int(IntUnary::Plus)),
        Punct::Minus => Start::Unary(UnaryOp::Int(IntUnary::Minus)),
        Punct::Tilde => Start::Unary(UnaryOp::Int(IntUnary::Invert)),
        Punct::Not => Start::Unary(UnaryOp::Int(IntUnary::Not)),
        Punct::PlusPlus => Start::Step(StepOp::Increment),
        Punct::MinusMinus => Start::Step(StepOp::Decrement),
        _ => Start::Nothing,
    }
}

/// How an expression begins with this keyword.
pub fn start_keyword(word: Keyword) -> Start
    ensures { result ≡ class_of_start (grammar.start_keyword word) }
{
    match word {
        Keyword::Sizeof => Start::Sizeof,
        _ => Start::Nothing,
    }
}

/// How an expression goes on with this punctuator (C17 6.5.2, 6.5.5 to 6.5.17).
pub fn tail_punct(punct: Punct) -> Tail
    ensures { tail_of result ≡ grammar.tail_punct punct }
{
    match punct {
        Punct::OrOr => Tail::Binary(BinaryOp::OrOr),
        Punct::AndAnd => Tail::Binary(BinaryOp::AndAnd),
        Punct::Or => Tail::Binary(BinaryOp::Int(IntOp::Or)),
        Punct::Caret => Tail::Binary(BinaryOp::Int(IntOp::Xor)),
        Punct::And => Tail::Binary(BinaryOp::Int(IntOp::And)),
        Punct::EqualEqual => Tail::Binary(BinaryOp::Int(IntOp::Eq)),
        Punct::NotEqual => Tail::Binary(BinaryOp::Int(IntOp::Ne)),
        Punct::Less => Tail::Binary(BinaryOp::Int(IntOp::Lt)),
        Punct::LessEqual => Tail::Binary(BinaryOp::Int(IntOp::Le)),
        Punct::Greater => Tail::Binary(BinaryOp::Int(IntOp::Gt)),
        Punct::GreaterEqual => Tail::Binary(BinaryOp::Int(IntOp::Ge)),
        Punct::ShiftLeft => Tail::Binary(BinaryOp::Int(IntOp::Shl)),
        Punct::ShiftRight => Tail::Binary(BinaryOp::Int(IntOp::Shr)),
        Punct::Plus => Tail::Binary(BinaryOp::Int(IntOp::Add)),
        Punct::Minus => Tail::Binary(BinaryOp::Int(IntOp::Sub)),
        Punct::Star => Tail::Binary(BinaryOp::Int(IntOp::Mul)),
        Punct::Slash => Tail::Binary(BinaryOp::Int(IntOp::Div)),
        Punct::Percent => Tail::Binary(BinaryOp::Int(IntOp::Rem)),
        Punct::Equal => Tail::Assign(AssignOp::Plain),
        Punct::StarEqual => Tail::Assign(AssignOp::Mul),
        Punct::SlashEqual => Tail::Assign(AssignOp::Div),
        Punct::PercentEqual => Tail::Assign(AssignOp::Rem),
        Punct::PlusEqual => Tail::Assign(AssignOp::Add),
        Punct::MinusEqual => Tail::Assign(AssignOp::Sub),
        Punct::ShiftLeftEqual => Tail::Assign(AssignOp::Shl),
        Punct::ShiftRightEqual => Tail::Assign(AssignOp::Shr),
        Punct::AndEqual => Tail::Assign(AssignOp::And),
        Punct::CaretEqual => Tail::Assign(AssignOp::Xor),
        Punct::OrEqual => Tail::Assign(AssignOp::Or),
        Punct::Question => Tail::Question,
        Punct::Comma => Tail::Comma,
        Punct::LeftParen => Tail::Call,
        Punct::LeftBracket => Tail::Index,
        Punct::Dot => Tail::Dot,
        Punct::Arrow => Tail::Arrow,
        Punct::PlusPlus => Tail::Step(StepOp::Increment),
        Punct::MinusMinus => Tail::Step(StepOp::Decrement),
        _ => Tail::End,
    }
}

/// How a specifier begins with this keyword (C17 6.7.1 to 6.7.4).
pub fn spec_keyword(word: Keyword) -> SpecStart
    ensures { result ≡ class_of_spec (grammar.spec_keyword word) }
{
    match word {
        Keyword::Typedef => SpecStart::Word(SpecWord::Typedef),
        Keyword::Extern => SpecStart::Word(SpecWord::Extern),
        Keyword::Static => SpecStart::Word(SpecWord::Static),
        Keyword::Inline => SpecStart::Word(SpecWord::Inline),
        Keyword::Const => SpecStart::Word(SpecWord::Const),
        Keyword::Void => SpecStart::Word(SpecWord::Void),
        Keyword::Char => SpecStart::Word(SpecWord::Char),
        Keyword::Short => SpecStart::Word(SpecWord::Short),
        Keyword::Int => SpecStart::Word(SpecWord::Int),
        Keyword::Long => SpecStart::Word(SpecWord::Long),
        Keyword::Signed => SpecStart::Word(SpecWord::Signed),
        Keyword::Unsigned => SpecStart::Word(SpecWord::Unsigned),
        Keyword::Bool => SpecStart::Word(SpecWord::Bool),
        Keyword::Struct => SpecStart::Struct,
        Keyword::Enum => SpecStart::Enum,
        _ => SpecStart::Nothing,
    }
}

/// How a statement or a label begins with this keyword (C17 6.8).
pub fn stmt_keyword(word: Keyword) -> StmtStart
    ensures { stmt_of result ≡ grammar.stmt_keyword word }
{
    match word {
        Keyword::If => StmtStart::If,
        Keyword::Switch => StmtStart::Switch,
        Keyword::While => StmtStart::While,
        Keyword::Do => StmtStart::Do,
        Keyword::For => StmtStart::For,
        Keyword::Break => StmtStart::Break,
        Keyword::Continue => StmtStart::Continue,
        Keyword::Return => StmtStart::Return,
        Keyword::Case => StmtStart::Case,
        Keyword::Default => StmtStart::Default,
        _ => StmtStart::Other,
    }
}

/// How a statement begins with this punctuator.
pub fn stmt_punct(punct: Punct) -> StmtStart
    ensures { stmt_of result ≡ grammar.stmt_punct punct }
{
    match punct {
        Punct::LeftBrace => StmtStart::Block,
        Punct::Semicolon => StmtStart::Empty,
        _ => StmtStart::Other,
    }
}

/// The level of a binary operator: the greater, the tighter (C17 6.5.5 to 6.5.14).
pub fn binary_level(op: BinaryOp) -> u8
    ensures value { result ≡ grammar_levels.binary_level op }
    ensures some { 0 < result }
    ensures small { result ≤ 13 }
{
    match op {
        BinaryOp::OrOr => levels::LOGICAL_OR,
        BinaryOp::AndAnd => levels::LOGICAL_AND,
        BinaryOp::Int(op) => match op {
            IntOp::Or => levels::OR,
            IntOp::Xor => levels::XOR,
            IntOp::And => levels::AND,
            IntOp::Eq | IntOp::Ne => levels::EQUALITY,
            IntOp::Lt | IntOp::Le | IntOp::Gt | IntOp::Ge => levels::RELATION,
            IntOp::Shl | IntOp::Shr => levels::SHIFT,
            IntOp::Add | IntOp::Sub => levels::SUM,
            IntOp::Mul | IntOp::Div | IntOp::Rem => levels::PRODUCT,
        },
    }
}

/// How tightly it binds what stands before it.
pub fn binds(tail: Tail) -> u8
    ensures { result ≡ grammar.binds (tail_of tail) }
{
    match tail {
        Tail::Binary(op) => binary_level(op),
        Tail::Assign(_) => levels::ASSIGNMENT,
        Tail::Question => levels::CONDITIONAL,
        Tail::Comma => levels::COMMA,
        Tail::Call | Tail::Index | Tail::Dot | Tail::Arrow | Tail::Step(_) => levels::POSTFIX,
        Tail::End => 0,
    }
}

/// The least level of what may stand before it.
pub fn left_level(tail: Tail) -> u8
    ensures { result ≡ grammar.left_level (tail_of tail) }
{
    match tail {
        Tail::Binary(op) => binary_level(op),
        Tail::Assign(_) => levels::UNARY,
        Tail::Question => levels::LOGICAL_OR,
        Tail::Comma => levels::COMMA,
        Tail::Call | Tail::Index | Tail::Dot | Tail::Arrow | Tail::Step(_) | Tail::End =>
            levels::POSTFIX,
    }
}
