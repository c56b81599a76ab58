// What holds of reading. Each law is the contract of a function without a body.
ghost use Rattle.std.specs.Prelude.{◌≡◌, ℕ, List, [], Ok};
ghost use Rattle.cc_base.specs.declared.place.Spot.{Spot as SpotValue};
ghost use Rattle.cc_lex.specs.declared.token.Token.{Token as TokenValue};
ghost use Rattle.cc_tree.specs.Trees.{ExternalTree};
ghost use Rattle.cc_grammar.specs.Orderly.{Orderly};
ghost use Rattle.cc_grammar.specs.Reading.{reading};
ghost use Rattle.cc_grammar.specs.Spells.{Spells};
ghost use Rattle.cc_grammar.specs.WellFormed.{WellFormed};

/// What is read of tokens to their end, within a limit of depth, is a file of the grammar within that limit, which they
/// spell.
pub fn what_is_read_is_spelled()
    ensures { (deepest : ℕ) (tokens : List TokenValue) (f : List (ExternalTree SpotValue))
        → reading deepest tokens ≡ Ok (f, []) → WellFormed deepest tokens f }
{}

/// Each file of the grammar within a limit of depth is read within that limit, and to the end.
pub fn each_file_is_read()
    ensures { (deepest : ℕ) (tokens : List TokenValue) (f : List (ExternalTree SpotValue))
        → WellFormed deepest tokens f → reading deepest tokens ≡ Ok (f, []) }
{}

/// Tokens are the spelling of one orderly tree at most, however deep it is.
pub fn tokens_have_one_tree()
    ensures { (tokens : List TokenValue) (f g : List (ExternalTree SpotValue))
        → Orderly f → Spells f tokens → Orderly g → Spells g tokens → f ≡ g }
{}
