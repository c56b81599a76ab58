// Acts.
use crate::value_act::{Conversion, Gives, Named, Operator};
use cc_arith::{IntKind, IntUnary};
use cc_program::FuncId;
use cc_store::Value;

/// What the machine does at a point, and the point that comes next. Values lie on a stack, each with its node, until they are
/// used. `occ` is the node whose value the act gives. Names of an activation have numbers, its formals first.
#[derive(Clone, Copy)]
pub enum Act {
    /// Nothing.
    Skip {
        next: u32,
    },
    /// A value that is known: of a constant, of a function's name, of `sizeof`.
    Constant {
        occ: u32,
        value: Value,
        next: u32,
    },
    /// The value of a part is this node's too: of parentheses, of `&`, of a comma's right side.
    Hand {
        occ: u32,
        next: u32,
    },
    /// A name or a string literal.
    Name {
        occ: u32,
        object: Named,
        gives: Gives,
        next: u32,
    },
    /// `*e`.
    Target {
        occ: u32,
        gives: Gives,
        next: u32,
    },
    /// `e[i]`.
    Element {
        occ: u32,
        gives: Gives,
        next: u32,
    },
    /// `e.m` or `e->m`: cell `offset` of a struct of `cells` cells. `lvalue` is the one that designates the struct, or the
    /// `->` expression.
    Member {
        occ: u32,
        lvalue: u32,
        cells: u32,
        offset: u32,
        gives: Gives,
        next: u32,
    },
    /// The value is used no more.
    Forget {
        next: u32,
    },
    /// A cast, or a conversion that comes of itself.
    Convert {
        occ: u32,
        to: Conversion,
        next: u32,
    },
    /// `+`, `-`, `~` of an integer, converted to the kind before.
    Unary {
        occ: u32,
        op: IntUnary,
        kind: IntKind,
        next: u32,
    },
    /// 1 or 0, whether the value counts as true or, negated, whether it does not.
    Truth {
        occ: u32,
        is_negated: bool,
        next: u32,
    },
    /// An operator on two values, the right one on top.
    Binary {
        occ: u32,
        operator: Operator,
        next: u32,
    },
    /// A plain assignment: writes the value through the place under it, by the lvalue.
    Store {
        lvalue: u32,
        occ: u32,
        to: Conversion,
        next: u32,
    },
    /// A struct assignment: writes the values of `count` cells through the place under them.
    Copy {
        lvalue: u32,
        occ: u32,
        count: u32,
        next: u32,
    },
    /// A compound assignment: the right value lies over the left one, and that over the place.
    Update {
        lvalue: u32,
        occ: u32,
        operator: Operator,
        to: Conversion,
        next: u32,
    },
    /// A step: 1 is the right operand. After its operand it gives the value that was read.
    Step {
        lvalue: u32,
        occ: u32,
        operator: Operator,
        to: Conversion,
        is_after: bool,
        next: u32,
    },
    /// Goes by whether the value counts as true.
    Branch {
        yes: u32,
        no: u32,
    },
    /// The left side of `&&` (`when` false) or `||` (true): where its truth is `when`, that is the value, and `next` comes
    /// next; else `right` does.
    Shortcut {
        occ: u32,
        when: bool,
        right: u32,
        next: u32,
    },
    /// A switch: its value, converted to the kind, is looked for among `count` cases from number `from`.
    Select {
        kind: IntKind,
        from: u32,
        count: u32,
        other: u32,
    },
    /// A call, whose `count` arguments lie over the designator.
    Call {
        occ: u32,
        count: u32,
        is_used: bool,
        next: u32,
    },
    /// A call of a function of the environment, with a result of this kind or none.
    Ask {
        occ: u32,
        callee: FuncId,
        count: u32,
        result: Option<IntKind>,
        next: u32,
    },
    /// A function is entered. Its formals have `formals` declarators from number `from`; it has `names` names in all.
    Enter {
        callee: FuncId,
        from: u32,
        formals: u32,
        names: u32,
        next: u32,
    },
    /// The activation ends, with the objects of its first `names` names.
    Leave {
        names: u32,
    },
    /// A `return` statement with its value, or with none.
    Return {
        occ: u32,
        to: Conversion,
        next: u32,
    },
    /// A `return` statement without a value.
    ReturnNone {
        occ: u32,
        next: u32,
    },
    /// The object of a name is made.
    Make {
        declarator: u32,
        cells: u32,
        name: u32,
        next: u32,
    },
    /// The one cell of a name's object gets its first value.
    Init {
        declarator: u32,
        name: u32,
        to: Conversion,
        next: u32,
    },
    /// The cells of a name's object get their first values, by `fillers` fillers from number `from`; the last `count` values
    /// are the operands that these take.
    Fill {
        declarator: u32,
        name: u32,
        from: u32,
        fillers: u32,
        count: u32,
        next: u32,
    },
    /// The objects of `count` names from number `from` end, the last name's first.
    Drop {
        from: u32,
        count: u32,
        next: u32,
    },
}
