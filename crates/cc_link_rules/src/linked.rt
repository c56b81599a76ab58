// Names that mean the same in all files.
ghost use Rattle.std.specs.Prelude.{◌≡◌, [], OnOk};
ghost use Rattle.cc_link_rules.specs.Linked as spec;

use cc_base::{List, Memory, Text};
use cc_types::TypeId;
use indexmap::IndexMap;
use std::alloc::Global;
use std::marker::Model;

/// What is known of a name.
#[derive(Clone, Copy)]
pub struct Linked {
    /// The declaration of its first declarator, by number.
    pub first: u32,
    pub is_function: bool,
    /// Its type, composed of those of its declarators so far.
    pub kind: TypeId,
    /// The node of its defining declarator.
    pub definition: Option<u32>,
    /// Whether it is a function that the project file names among those of the environment.
    pub is_environment: bool,
}

/// The names, in the order of their first declarators. A contract sees them with what is known of each.
#[derive(Drop)]
pub struct Links<'a> {
    names: IndexMap<&'a str, Linked>,
}

impl<'a> Model for Links<'a> {
    ghost use Rattle.std.specs.Prelude.{List, ℕ, map};
    ghost use Rattle.cc_link_rules.specs.declared.linked.Linked.{Linked};

    ghost Value = { List (List ℕ × Linked) };

    ghost view = { λ l. map (λ e. (e.0.now, e.1)) l.names.entries };
}

impl<'a> Links<'a> {
    /// No names. Takes no memory.
    pub fn new(alloc: Global) -> Links<'a>
        ensures { result ≡ [] }
    {
        Links {
            names: IndexMap::new(alloc),
        }
    }

    /// What is known of a name. Takes no memory.
    pub fn find(&self, name: &str) -> Option<Linked>
        ensures { result ≡ spec.known_of self.now name.now }
    {
        match self.names.get(name) {
            Some(linked) => Some(*linked),
            None => None,
        }
    }

    /// From now on this is known of a name.
    pub fn put(&mut self, name: &'a str, linked: Linked) -> Result<(), Memory>
        ensures { OnOk result (self.new ≡ spec.put self.old name.now linked) }
    {
        self.names.insert(name, linked)?;
        Ok(())
    }
}

/// The text of this number; empty past the end.
pub fn text_at<'a>(texts: &'a List<Text>, number: u32) -> &'a str
    ensures { result.now ≡ spec.text_at texts.now number }
{
    match texts.as_slice().get(number as usize) {
        Some(text) => text.as_str(),
        None => "",
    }
}
