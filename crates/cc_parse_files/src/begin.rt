// What the next token can begin. Nothing is proved of it: it says where a refusal is one of depth alone.

use cc_parse_tokens::{Cursor, Start, StmtStart, TypedefNames};

/// Whether the next token begins an expression. A typedef name doesn't.
pub fn begins_expression(tokens: &Cursor<'_>, names: &TypedefNames) -> bool {
    tokens.start() != Start::Nothing && !tokens.starts_spec(names)
}

/// Whether the next token begins a statement. A typedef name doesn't.
pub fn begins_statement(tokens: &Cursor<'_>, names: &TypedefNames) -> bool {
    match tokens.stmt_start() {
        StmtStart::Case | StmtStart::Default => false,
        StmtStart::Other => begins_expression(tokens, names),
        _ => true,
    }
}
