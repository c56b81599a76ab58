//! What holds of nested scopes, by their definitions. Each function does nothing: its contract is the law.
ghost use Rattle.std.specs.Prelude.{◌≡◌, ◌∷◌, ◌++◌, ℕ, List, map, Some, None, false};
ghost use Rattle.cc_scopes.specs.Names.{Names, declaration_of, is_here, names_outside};

/// Leaving a block takes away the names that it declared, and no others.
pub fn the_names_of_a_block_go()
    ensures { (declared : List (List ℕ × ℕ)) → (outside : Names)
        → names_outside (map Some declared ++ None ∷ outside) ≡ outside }
{}

/// In a block, a name that it doesn't declare means what it means outside.
pub fn other_names_mean_what_they_mean_outside()
    ensures { (declared : List (List ℕ × ℕ)) → (outside : Names) → (name : List ℕ)
        → is_here (map Some declared ++ None ∷ outside) name ≡ false
        → declaration_of (map Some declared ++ None ∷ outside) name ≡ declaration_of outside name }
{}
