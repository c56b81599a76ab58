// What holds of the parser's answers. Each law is the contract of a function without a body.
ghost use Rattle.std.specs.Prelude.{◌≡◌, ◌≢◌, List};
ghost use Rattle.cc_base.specs.declared.place.Spot.{Spot as SpotValue};
ghost use Rattle.cc_lex.specs.declared.token.Token.{Token as TokenValue};
ghost use Rattle.cc_tree.specs.Trees.{ExternalTree};
ghost use Rattle.cc_parse.specs.Answers.{IsTheTree, IsRefused};
ghost use Rattle.cc_parse.specs.declared.fault.ParseFault.{ParseFault as FaultValue};
ghost use Rattle.cc_parse.specs.declared.fault.ParseFault.TheVariants as fault;

/// Tokens are refused for one reason at most: so, want of memory aside, each fault comes exactly where its condition holds.
pub fn a_refusal_is_the_only_one()
    ensures { (tokens : List TokenValue) (e f : FaultValue)
        → e ≢ fault.Memory → f ≢ fault.Memory
        → IsRefused tokens e → IsRefused tokens f → e ≡ f }
{}

/// Tokens that are a file are refused for no reason.
pub fn a_file_is_not_refused()
    ensures { (tokens : List TokenValue) (f : List (ExternalTree SpotValue)) (e : FaultValue)
        → e ≢ fault.Memory → IsTheTree tokens f → IsRefused tokens e → ⊥ }
{}
