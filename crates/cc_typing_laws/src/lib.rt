//! The laws of typing: what `cc_typing` says of expressions by shapes and numbers, in terms of types and of lists
//! (docs/typing.md).
//!
//! `specs/Operators.antt` and `specs/Postfix.antt` have the rules of expressions as rules on plain types,
//! `specs/Typing.antt` the types of expressions by them, `specs/Findings.antt` the offences and the types of an
//! expression's nodes as lists. The contracts here are that the definitions of `cc_typing` say the same.
#![tactic(auto)]

ghost use Rattle.cc_typing_laws.specs.Laws.{TypingMeans, TypesAreSound, TheLeastIsKept, TypesAreKept, TheLeastIsFirst};

/// Where the types are a table that begins with `char`, what is said of an expression by shapes and numbers means what is
/// said of it by types, and what its type is made of is in the table.
pub fn typing_laws()
    ensures means { TypingMeans }
    ensures sound { TypesAreSound }
{}

/// After an expression is judged, the offence that is kept is the least of the one before and of the list of its offences,
/// which is the first of them by place and then by rule; and the type of each node is put at its number.
pub fn finding_laws()
    ensures least { TheLeastIsKept }
    ensures types { TypesAreKept }
    ensures first { TheLeastIsFirst }
{}
