// The macros, by their names.
ghost use Rattle.std.specs.Prelude.{◌≡◌, ◌==◌, ℕ, true, false, [], List, None, Some, IfNone, IfSome, OnErr, OnOk, if◌then◌else◌};
ghost use Rattle.std.specs.Str.{bytes_eq};
ghost use Rattle.cc_prep.specs.Macros as spec;
ghost use Rattle.cc_prep.specs.Macros.{macro_in};

use crate::kind::KindList;
use cc_base::Memory;
use cc_lex::TokenKind;
use indexmap::IndexMap;
use std::alloc::Global;
use std::marker::Model;

/// The macros so far. A name whose macro was taken away stays, with none.
#[derive(Drop)]
pub struct Macros {
    pub lists: IndexMap<String, Option<KindList>>,
}

impl Macros {
    /// No macros. Takes no memory.
    pub fn new(alloc: Global) -> Macros
        ensures { (name : List ℕ) → macro_in result.lists.entries name ≡ None }
    {
        Macros {
            lists: IndexMap::new(alloc),
        }
    }

    /// The list of the macro of this name, and its number, which no other name has.
    pub fn find(&self, name: &str) -> Option<(usize, &[TokenKind])>
        ensures some { IfSome result (λ m. macro_in self.now.lists.entries name.now ≡ Some m.1.now) }
        ensures none { IfNone result (macro_in self.now.lists.entries name.now ≡ None) }
    {
        match self.lists.get_full(name) {
            Some((number, _, list)) => match list {
                Some(list) => Some((number, list.as_slice())),
                None => None,
            },
            None => None,
        }
    }

    /// Gives the name this list, or takes its macro away.
    pub fn bind(&mut self, alloc: Global, name: &str, list: Option<KindList>) -> Result<(), Memory>
        ensures { OnOk result ((other : List ℕ) → macro_in self.new.lists.entries other
            ≡ (if bytes_eq other name.now then list else macro_in self.old.lists.entries other)) }
    {
        let name = String::from_str(alloc, name)?;
        match self.lists.insert(name, list) {
            Ok(_) => Ok(()),
            Err(_) => Err(Memory),
        }
    }
}

/// Which macros are hidden, by their numbers. A contract sees a list of marks.
#[derive(Drop)]
pub struct Hidden {
    marks: Vec<bool>,
}

impl Model for Hidden {
    ghost use Rattle.std.specs.Prelude.{List as Marks, Bool};

    ghost Value = { Marks Bool };

    ghost view = { λ h. h.marks.items };
}

impl Hidden {
    /// None is. Takes no memory.
    pub fn new(alloc: Global) -> Hidden
        ensures { result ≡ [] }
    {
        Hidden {
            marks: Vec::new(alloc),
        }
    }

    /// Whether the macro of this number is hidden.
    pub fn has(&self, number: usize) -> bool
        ensures { result ≡ spec.is_hidden self.now number }
    {
        if number < self.marks.len() {
            self.marks[number]
        } else {
            false
        }
    }

    /// Hides the macro of this number.
    pub fn hide(&mut self, number: usize) -> Result<(), Memory>
        ensures { OnOk result (spec.is_hidden self.new number ≡ true) }
    {
        while self.marks.len() <= number {
            self.marks.push(false)?;
        }
        self.marks[number] = true;
        Ok(())
    }

    /// Shows the macro of this number again.
    pub fn show(&mut self, number: usize)
        ensures { spec.is_hidden self.new number ≡ false }
    {
        if number < self.marks.len() {
            self.marks[number] = false;
        }
    }
}
