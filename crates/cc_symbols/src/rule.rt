//! The rules on trees, by the numbers that the program prints: what a file keeps to (docs/rules.md).

/// C15: a specifier list names exactly one type, and has at most one of `typedef`, `extern`, `static`.
pub const ONE_TYPE: u8 = 15;

/// C16: `inline` stands with `static`, and on a function.
pub const INLINE: u8 = 16;

/// C17: `typedef`, members and enumeration constants stand in specifiers at file scope alone.
pub const FILE_SCOPE_ONLY: u8 = 17;

/// C18: a name is declared once in its scope and name space.
pub const NEW_NAME: u8 = 18;

/// C19: an object, member or element has a complete object type.
pub const OBJECT_TYPE: u8 = 19;

/// C20: lengths of arrays are there, and neither they nor depths pass their limits.
pub const ARRAY_SIZE: u8 = 20;

/// C21: a function has neither an array, a function nor a struct as its result, and no struct parameter.
pub const FUNCTION_TYPE: u8 = 21;

/// C22: there is no pointer to void.
pub const POINTER_TO_VOID: u8 = 22;

/// C23: what has a body is a function by its own declarator, with named parameters.
pub const FUNCTION_BODY: u8 = 23;

/// C24: storage classes, `extern` and functions stand where they may.
pub const STORAGE_CLASS: u8 = 24;

/// C25: an initialiser has the shape of what it initialises.
pub const INITIALISER_SHAPE: u8 = 25;

/// C26: a static scalar's initialiser is a constant of one of six forms.
pub const STATIC_INITIALISER: u8 = 26;

/// C27: lengths, case values, enumerators and static integers have a defined constant value.
pub const CONSTANT: u8 = 27;

/// C28: `break` and `continue` stand inside what they leave or continue.
pub const JUMP: u8 = 28;

/// C29: labels stand in a switch's own block, declarations not.
pub const LABEL_PLACE: u8 = 29;

/// C30: a switch has each label once.
pub const NEW_LABEL: u8 = 30;

/// C31: a `return` has a value exactly where the function's result isn't void.
pub const RETURN_VALUE: u8 = 31;

/// C32: a condition is scalar, a switch's expression integer.
pub const CONDITION: u8 = 32;

/// C33: assignments and steps stand where they may.
pub const ASSIGNMENT_PLACE: u8 = 33;

/// C34: a comma operator stands at the top of a `for` clause.
pub const COMMA_PLACE: u8 = 34;

/// C35: a name is declared before.
pub const DECLARED_NAME: u8 = 35;

/// C36: what is called is a function or a pointer to one.
pub const CALLED_FUNCTION: u8 = 36;

/// C37: a call has as many arguments as the function has parameters.
pub const ARGUMENT_COUNT: u8 = 37;

/// C38: an argument, assigned value, initialiser or returned value fits.
pub const FIT: u8 = 38;

/// C39: what is assigned is an lvalue of scalar or struct type that isn't const.
pub const TARGET: u8 = 39;

/// C40: the operand of `+`, `-`, `~` is integer, that of `!` scalar.
pub const UNARY_OPERAND: u8 = 40;

/// C41: the operand of `*` points to a complete object or a function.
pub const POINTER_OPERAND: u8 = 41;

/// C42: the operand of `&` is an lvalue or a function.
pub const ADDRESS_OPERAND: u8 = 42;

/// C43: the operands of an arithmetic, shift or bit operator suit it.
pub const ARITHMETIC: u8 = 43;

/// C44: the operands of a comparison suit each other.
pub const COMPARISON: u8 = 44;

/// C45: an operand of `&&` or `||` is scalar.
pub const SCALAR_OPERAND: u8 = 45;

/// C46: a subscript has a pointer to a complete object and an integer.
pub const SUBSCRIPT: u8 = 46;

/// C47: a member access has a complete struct with this member.
pub const MEMBER: u8 = 47;

/// C48: the branches of `?:` suit each other.
pub const BRANCHES: u8 = 48;

/// C49: a cast is between integers, to void, or in a null constant.
pub const CAST: u8 = 49;

/// C50: `sizeof` has a complete object type.
pub const SIZE_OPERAND: u8 = 50;

/// C51: the operands of a compound assignment or a step suit it.
pub const STEP_OPERAND: u8 = 51;

/// C52: a struct is copied whole by a plain assignment alone.
pub const STRUCT_VALUE: u8 = 52;
