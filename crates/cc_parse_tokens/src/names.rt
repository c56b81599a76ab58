// Typedef names.
ghost use Rattle.std.specs.Prelude.{◌≡◌, [], OnOk, OnErr};
ghost use Rattle.cc_grammar.specs.Names.{is_type, added};

use cc_base::Memory;
use indexmap::IndexSet;
use std::alloc::Global;
use std::marker::Model;

/// The typedef names so far. A contract sees them as a list.
#[derive(Drop)]
pub struct TypedefNames {
    names: IndexSet<String>,
}

impl Model for TypedefNames {
    ghost use Rattle.std.specs.Prelude.{List, ℕ, map, string_bytes};

    ghost Value = { List (List ℕ) };

    ghost view = { λ t. map string_bytes t.names.keys };
}

impl TypedefNames {
    /// No names. Takes no memory.
    pub fn new(alloc: Global) -> TypedefNames
        ensures { result ≡ [] }
    {
        TypedefNames {
            names: IndexSet::new(alloc),
        }
    }

    /// Whether this is a typedef name. Takes no memory.
    #[tactic(auto, using(crate::proofs::NameLists::any_of_names))]
    pub fn has(&self, name: &str) -> bool
        ensures { result ≡ is_type self.now name.now }
    {
        self.names.contains(name)
    }

    /// Takes a name down. Where memory is wanting, the names stay.
    pub fn add(&mut self, alloc: Global, name: &str) -> Result<(), Memory>
        ensures ok { OnOk result (self.new ≡ added name.now self.old) }
        ensures err { OnErr result (self.new ≡ self.old) }
    {
        let name = String::from_str(alloc, name)?;
        self.names.insert(name)?;
        Ok(())
    }
}
