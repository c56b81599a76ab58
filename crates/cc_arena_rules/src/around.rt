// What a node has from the nodes around it.
ghost use Rattle.std.specs.Prelude.{◌≡◌};
ghost use Rattle.cc_arena_rules.specs.Surroundings as spec;

/// How an expression stands, where it is about assignments and commas.
#[derive(Clone, Copy)]
pub enum Standing {
    /// Inside another expression, or in a place where a value is asked for.
    Inside,
    /// The whole of an expression statement, parentheses aside.
    Statement,
    /// The whole of a first or third clause of a `for`, or an operand of the comma there.
    Clause,
    /// The same, with parentheses somewhere around it.
    WrappedClause,
}

/// The full expression that a node stands in.
#[derive(Clone, Copy)]
pub enum Extent {
    Nowhere,
    /// Initialiser in braces of an automatic object; the expressions in it are full ones.
    Initialiser,
    /// In the full expression of this number.
    Expression(u32),
}

/// What a node has from the nodes around it.
#[derive(Clone, Copy)]
pub struct Around {
    /// Whether a `break` here has a loop or `switch` to leave.
    pub may_break: bool,
    /// Whether a `continue` here has a loop to go on with.
    pub may_continue: bool,
    pub standing: Standing,
    pub extent: Extent,
    /// Whether an lvalue here is used as a value, if what it stands in is evaluated.
    pub is_value: bool,
    /// Whether it is the operand of `&`, or what that begins with: parentheses, `.` and subscripts aside.
    pub is_addressed: bool,
    /// Whether it is an array that is used as a value, or what that begins with: parentheses and `.` aside.
    pub is_array: bool,
    /// Whether a null constant may stand here, if it is `(void *)0`.
    pub may_be_null: bool,
}

impl Around {
    // Of what is a part of nothing.
    pub(crate) fn outermost() -> Around
        ensures { result ≡ spec.outermost }
    {
        Around {
            may_break: false,
            may_continue: false,
            standing: Standing::Inside,
            extent: Extent::Nowhere,
            is_value: false,
            is_addressed: false,
            is_array: false,
            may_be_null: false,
        }
    }
}
