// The texts that came before.
ghost use Rattle.std.specs.Prelude.{◌≡◌, ◌++◌, ◌∷◌, [], IfOk, if◌then◌else◌};
ghost use Rattle.cc_project.specs.Names.{is_new};

use cc_base::Memory;
use indexmap::IndexSet;
use std::alloc::Global;
use std::marker::Model;

/// Texts without repetition, in the order in which they came. A contract sees their bytes.
#[derive(Drop)]
pub struct Seen<'a> {
    texts: IndexSet<&'a str>,
}

impl<'a> Model for Seen<'a> {
    ghost use Rattle.std.specs.Prelude.{List, ℕ, map};

    ghost Value = { List (List ℕ) };

    ghost view = { λ s. map (λ text. text.now) s.texts.keys };
}

impl<'a> Seen<'a> {
    /// No texts.
    pub fn new(alloc: Global) -> Seen<'a>
        ensures { result ≡ [] }
    {
        Seen {
            texts: IndexSet::new(alloc),
        }
    }

    /// Adds the text if it is none of these, and tells whether it was none.
    #[tactic(auto, using(cc_project::proofs::Texts::any_of_texts))]
    pub fn add(&mut self, text: &'a str) -> Result<bool, Memory>
        ensures value { IfOk result (λ added. added ≡ is_new self.old text.now) }
        ensures after { IfOk result (λ added. self.new ≡ (if added then self.old ++ text.now ∷ [] else self.old)) }
    {
        Ok(self.texts.insert(text)?)
    }
}
