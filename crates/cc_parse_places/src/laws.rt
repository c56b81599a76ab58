// What holds of the token at which reading fails. Each law is the contract of a function without a body.
ghost use Rattle.std.specs.Prelude.{◌≡◌, ◌<◌, ◌-◌, ℕ, List, [], ◌∷◌, ◌++◌, length, take, Err};
ghost use Rattle.cc_base.specs.declared.place.Spot.{Spot as SpotValue};
ghost use Rattle.cc_lex.specs.declared.token.Token.{Token as TokenValue};
ghost use Rattle.cc_tree.specs.Trees.{ExternalTree};
ghost use Rattle.cc_grammar.specs.CutOff.{CutOff};
ghost use Rattle.cc_grammar.specs.Reading.{reading};
ghost use Rattle.cc_grammar.specs.WellFormed.{WellFormed};

/// Where reading fails at a token, it fails there whatever follows the token.
pub fn a_token_is_refused_whatever_follows()
    ensures { (deepest : ℕ) (before : List TokenValue) (refused : TokenValue)
        (rest more : List TokenValue)
        → reading deepest (before ++ refused ∷ rest) ≡ Err (refused ∷ rest)
        → reading deepest (before ++ refused ∷ more) ≡ Err (refused ∷ more) }
{}

/// No file of the grammar begins with the tokens up to the one at which reading fails and that token.
pub fn no_file_begins_so()
    ensures { (deepest : ℕ) (tokens : List TokenValue) (refused : TokenValue)
        (rest : List TokenValue)
        → reading deepest tokens ≡ Err (refused ∷ rest)
        → (more : List TokenValue) (f : List (ExternalTree SpotValue))
        → WellFormed deepest (take (length tokens - length rest) tokens ++ more) f → ⊥ }
{}

/// The tokens before the place at which reading fails are the spelling of a cut-off file.
pub fn the_tokens_before_are_a_cut_off_file()
    ensures { (deepest : ℕ) (tokens left : List TokenValue)
        → reading deepest tokens ≡ Err left
        → CutOff deepest (take (length tokens - length left) tokens) }
{}

/// No cut-off file is spelled by the tokens up to the one at which reading fails and that token.
pub fn no_cut_off_file_begins_so()
    ensures { (deepest : ℕ) (tokens : List TokenValue) (refused : TokenValue)
        (rest : List TokenValue)
        → reading deepest tokens ≡ Err (refused ∷ rest)
        → CutOff deepest (take (length tokens - length rest) tokens) → ⊥ }
{}

/// The first tokens of a cut-off file are the spelling of one: of the same tree, cut off earlier.
pub fn the_first_tokens_of_a_cut_off_file_are_one()
    ensures { (deepest count : ℕ) (tokens : List TokenValue)
        → CutOff deepest tokens → CutOff deepest (take count tokens) }
{}

/// So the token at which reading fails is the last of the shortest prefix that no cut-off file is spelled by: with fewer
/// tokens there is one.
pub fn the_refused_token_ends_the_shortest_prefix()
    ensures { (deepest count : ℕ) (tokens : List TokenValue) (refused : TokenValue)
        (rest : List TokenValue)
        → reading deepest tokens ≡ Err (refused ∷ rest)
        → count < length tokens - length rest
        → CutOff deepest (take count tokens) }
{}

/// Where reading fails at the end of the tokens, a cut-off file is spelled by any number of the first ones.
pub fn at_the_end_all_are_a_cut_off_file()
    ensures { (deepest count : ℕ) (tokens : List TokenValue)
        → reading deepest tokens ≡ Err []
        → CutOff deepest (take count tokens) }
{}
