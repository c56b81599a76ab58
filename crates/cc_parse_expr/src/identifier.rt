// Identifiers.
ghost use Rattle.cc_grammar.specs.Reading as spec;
ghost use Rattle.cc_parse_tokens.specs.Gives.{Gives};

use cc_base::Text;
use cc_parse_tokens::{Cursor, Fault, TypedefNames};
use cc_tree_copies::copied_text;
use std::alloc::Global;

/// An identifier that is no typedef name (C17 6.4.2, 6.7.8).
pub fn identifier(
    alloc: Global,
    tokens: &mut Cursor<'_>,
    names: &TypedefNames,
) -> Result<Text, Fault>
    ensures { Gives (λ x. x) (spec.id names.now tokens.old) result tokens.new }
{
    let Some(name) = tokens.ident() else {
        return Err(Fault::Refused);
    };
    if names.has(name.as_str()) {
        return Err(Fault::Refused);
    }
    let name = copied_text(alloc, name)?;
    tokens.skip();
    Ok(name)
}
