// A program as the points-to rules see it.
ghost use Rattle.std.specs.Prelude.{◌≡◌, slice_get};
ghost use Rattle.cc_points_base.specs.Parts as spec;

use cc_arena::Span;
use cc_parts::Parts;
use cc_symbols::Slots;

/// What the type of an occurrence is, as far as the rules ask.
#[derive(Clone, Copy)]
pub enum Class {
    Pointer,
    Array,
    /// A struct type: its number, and for each pointer in such a struct how many parts it comes after the struct.
    Struct(u32, Span),
    Other,
}

/// What the rules see of an occurrence. Its parts are numbers of occurrences.
#[derive(Clone, Copy)]
pub enum What {
    /// A name of a variable, or a string literal, with the part that is the whole object.
    Name(u32),
    /// A name of a function, with its target.
    Designator(u32),
    Paren(u32),
    Address(u32),
    Deref(u32),
    /// A subscript, with the operand that is a pointer.
    Index(u32),
    /// A member by its place in the struct.
    Member(u32, u32),
    Arrow(u32, u32),
    /// A plain assignment.
    Assign(u32, u32),
    /// A sum, a difference, a step or a compound assignment of pointer type, with its pointer operand.
    Offset(u32),
    /// `?:`, with its branches.
    Cond(u32, u32),
    /// A comma operator, with its right operand.
    Comma(u32),
    Call(u32, Span),
    /// A return: the number of the function, and the expression.
    Return(u32, u32),
    /// An initialiser of a pointer cell: its slot, and the expression.
    Init(u32, u32),
    /// An occurrence of which no rule speaks.
    Other,
}

/// An occurrence, its type, and whether it is an lvalue without parentheses that is used as a value.
#[derive(Clone, Copy)]
pub struct Seen {
    pub what: What,
    pub class: Class,
    pub used: bool,
}

/// A function: whether it has a body, and the parts that are its formals.
#[derive(Clone, Copy)]
pub struct Callee {
    pub is_defined: bool,
    pub formals: Span,
}

/// The occurrences of a program by number, and after them the initialisers of pointer cells; the parts of its objects; its
/// functions; and the lists. A target is a part, by its number, or a function, whose number comes after those of all parts.
#[derive(Drop)]
pub struct View {
    pub nodes: Slots<Seen>,
    pub lists: Slots<u32>,
    pub parts: Parts,
    pub functions: Slots<Callee>,
}
