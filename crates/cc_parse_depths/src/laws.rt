// What holds of reading with a greater depth. Each law is the contract of a function without a body.
ghost use Rattle.std.specs.Prelude.{◌≡◌, ◌≢◌, ◌≤◌, ◌-◌, ◌+◌, ℕ, List, [], ◌∷◌, length, take, Ok, Err};
ghost use Rattle.cc_base.specs.declared.place.Spot.{Spot as SpotValue};
ghost use Rattle.cc_lex.specs.declared.token.Token.{Token as TokenValue};
ghost use Rattle.cc_tree.specs.Trees.{ExternalTree};
ghost use Rattle.cc_grammar.specs.CutOff.{CutOff};
ghost use Rattle.cc_grammar.specs.Reading.{reading};

/// A file that is read is read with a greater depth too, and is the same one.
pub fn a_greater_depth_reads_the_same_file()
    ensures { (deepest deeper : ℕ) (tokens : List TokenValue) (f : List (ExternalTree SpotValue))
        → deepest ≤ deeper
        → reading deepest tokens ≡ Ok (f, []) → reading deeper tokens ≡ Ok (f, []) }
{}

/// Reading with a greater depth fails at the same token or at a later one, if it fails.
pub fn a_greater_depth_reads_as_far()
    ensures { (deepest deeper : ℕ) (tokens left less : List TokenValue)
        → deepest ≤ deeper
        → reading deepest tokens ≡ Err left → reading deeper tokens ≡ Err less
        → length less ≤ length left }
{}

/// At the end of the tokens depth makes no difference: where reading fails there, it fails there with any greater depth.
pub fn the_end_is_never_too_deep()
    ensures { (deepest deeper : ℕ) (tokens : List TokenValue)
        → deepest ≤ deeper
        → reading deepest tokens ≡ Err [] → reading deeper tokens ≡ Err [] }
{}

/// A token that is refused where reading may be two deeper too is refused at each depth: no cut-off file, however deep, is
/// spelled by the tokens up to and with it.
pub fn a_token_that_two_more_refuse_is_refused_at_each_depth()
    ensures { (deepest deeper : ℕ) (tokens : List TokenValue) (refused : TokenValue)
        (rest : List TokenValue)
        → reading deepest tokens ≡ Err (refused ∷ rest)
        → reading (deepest + 2) tokens ≡ Err (refused ∷ rest)
        → CutOff deeper (take (length tokens - length rest) tokens) → ⊥ }
{}

/// And one that isn't refused there is refused for its depth alone: a cut-off file that is two deeper is spelled by the tokens
/// up to and with it.
pub fn a_token_that_two_more_take_is_too_deep()
    ensures { (deepest : ℕ) (tokens : List TokenValue) (refused : TokenValue)
        (rest : List TokenValue)
        → reading deepest tokens ≡ Err (refused ∷ rest)
        → reading (deepest + 2) tokens ≢ Err (refused ∷ rest)
        → CutOff (deepest + 2) (take (length tokens - length rest) tokens) }
{}
