// What holds of the grammar. Each law is the contract of a function without a body.
ghost use Rattle.std.specs.Prelude.{ℕ, List};
ghost use Rattle.cc_base.specs.declared.place.Spot.{Spot as SpotValue};
ghost use Rattle.cc_lex.specs.declared.token.Token.{Token as TokenValue};
ghost use Rattle.cc_tree.specs.Trees.{ExternalTree};
ghost use Rattle.cc_grammar.specs.CutOff.{CutOff};
ghost use Rattle.cc_grammar.specs.WellFormed.{WellFormed};

/// A whole file is a cut-off one too, of which no token is missing, whatever the limit of depth.
pub fn a_whole_file_is_a_cut_off_one()
    ensures { (deepest : ℕ) (tokens : List TokenValue) (f : List (ExternalTree SpotValue))
        → WellFormed deepest tokens f → CutOff deepest tokens }
{}
