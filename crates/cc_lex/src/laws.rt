//! What holds of the definitions, whatever the code does: each law is the contract of a function that does nothing.
ghost use Rattle.std.specs.Prelude.{◌≡◌, ◌↔◌, ℕ, List, Contains, true};
ghost use Rattle.cc_lex.specs.Cut.{Cut, IsFaultless, StandsAt, tokens_from};
ghost use Rattle.cc_lex.specs.Faults.{IsClean};
ghost use Rattle.cc_lex.specs.Given.{CanBeGiven};
ghost use Rattle.cc_lex.specs.Pieces.{Piece, Cuts, spell};
ghost use Rattle.cc_lex.specs.declared.token.Token.{Token};
ghost use Rattle.cc_base.specs.Spots.{start};

/// A text has at most one cut.
pub fn a_text_has_at_most_one_cut()
    ensures { (bytes : List ℕ) → (a b : List Token) → Cut bytes a → Cut bytes b → a ≡ b }
{}

/// A text has a cut exactly where none of its offsets is faulty.
pub fn a_cut_is_where_no_offset_is_faulty()
    ensures { (bytes : List ℕ) → ((tokens : List Token) × Cut bytes tokens) ↔ IsFaultless bytes }
{}

/// Each token of a cut stands at an offset: it is the longest there, and its spot is the one that `spot_of` tells of
/// this offset.
pub fn each_token_has_the_spot_of_its_offset()
    ensures { (bytes : List ℕ) → (tokens : List Token) → Cut bytes tokens
        → (t : Token) → Contains tokens t → (offset : ℕ) × StandsAt bytes offset t }
{}

/// The bytes before the place at which a fault is judged have a cut of their own, with the tokens of these pieces.
pub fn the_bytes_before_a_fault_have_a_cut()
    ensures { (bytes : List ℕ) → (pieces : List Piece) → (rest : List ℕ)
        → Cuts true pieces bytes rest → IsClean (spell pieces) → Cut (spell pieces) (tokens_from start pieces) }
{}

/// Each token of a cut has a name, a value and a type as a parser may take them.
pub fn each_token_can_be_given()
    ensures { (bytes : List ℕ) → (tokens : List Token) → Cut bytes tokens
        → (t : Token) → Contains tokens t → CanBeGiven t.kind }
{}
