// Declared names in nested scopes.
ghost use Rattle.std.specs.Prelude.{◌≡◌, ◌∷◌, [], Some, None, Bool, true, false, OnOk, OnErr};
ghost use Rattle.cc_scopes.specs.Names as spec;
ghost use Rattle.cc_scopes.specs.Steps.{step_before};

use crate::innermost::{Binding, bind, look_up};
use cc_base::Memory;
use indexmap::IndexMap;
use std::alloc::Global;
use std::marker::Model;

// What has to be taken back: the beginning of a block, or a declaration with the one that it hides.
#[derive(Clone, Copy)]
enum Step<'a> {
    Block,
    Name(&'a str, u32, Option<Binding>),
}

/// Declared names in nested scopes, each with the number of its declaration. A contract sees the list of them, innermost
/// first, with `None` where a block begins.
///
/// Finding a name takes one look-up, however many blocks there are, and leaving a block takes time for its own names
/// alone. Names are borrowed, so no text is copied.
#[derive(Drop)]
pub struct Scopes<'a> {
    innermost: IndexMap<&'a str, Option<Binding>>,
    trail: Vec<Step<'a>>,
    depth: u32,
}

impl<'a> Model for Scopes<'a> {
    ghost use Rattle.std.specs.Prelude.{List, Option, ℕ};

    ghost Value = { List (Option (List ℕ × ℕ)) };

    ghost use Rattle.cc_scopes.specs.Invariant.{names_in, IsTrailOf};

    ghost view = { names_in };

    ghost invariant = { IsTrailOf };
}

impl<'a> Scopes<'a> {
    /// No names, outside all blocks. Takes no memory.
    pub fn new(alloc: Global) -> Scopes<'a>
        ensures { result ≡ [] }
    {
        Scopes {
            innermost: IndexMap::new(alloc),
            trail: Vec::new(alloc),
            depth: 0,
        }
    }

    /// The number of the declaration that a name means here: of those with this name the innermost one. Takes no memory.
    pub fn find(&self, name: &str) -> Option<u32>
        ensures { result ≡ spec.declaration_of self.now name.now }
    {
        match look_up(&self.innermost, name) {
            Some(binding) => Some(binding.declaration),
            None => None,
        }
    }

    /// Whether a name is declared in the innermost block itself, or outside all blocks where none is entered. Takes no
    /// memory.
    pub fn is_here(&self, name: &str) -> bool
        ensures { result ≡ spec.is_here self.now name.now }
    {
        match look_up(&self.innermost, name) {
            Some(binding) => binding.depth == self.depth,
            None => false,
        }
    }

    /// Begins a block. Where memory is wanting, all stays; 2^32 blocks in one another are taken for want of memory.
    pub fn enter(&mut self) -> Result<(), Memory>
        ensures ok { OnOk result (self.new ≡ None ∷ self.old) }
        ensures err { OnErr result (self.new ≡ self.old) }
    {
        if self.depth == u32::MAX {
            return Err(Memory);
        }
        self.trail.push(Step::Block)?;
        self.depth += 1;
        Ok(())
    }

    /// Declares a name in the innermost block, which hides its declarations so far, there too. Where memory is wanting,
    /// all stays.
    pub fn declare(&mut self, name: &'a str, declaration: u32) -> Result<(), Memory>
        ensures ok { OnOk result (self.new ≡ Some (name.now, declaration) ∷ self.old) }
        ensures err { OnErr result (self.new ≡ self.old) }
    {
        let hidden = look_up(&self.innermost, name);
        self.trail.push(Step::Name(name, declaration, hidden))?;
        let binding = Binding {
            declaration,
            depth: self.depth,
        };
        match bind(&mut self.innermost, name, Some(binding)) {
            Ok(()) => Ok(()),
            Err(_) => {
                let _ = self.trail.pop();
                Err(Memory)
            }
        }
    }

    // Takes the last step back; whether it was a declaration.
    fn step_back(&mut self) -> bool
        ensures { (self.new, result) ≡ step_before self.old }
    {
        match self.trail.pop() {
            Some(Step::Name(name, _, hidden)) => {
                // The map has this name, so no memory is wanted.
                let _ = bind(&mut self.innermost, name, hidden);
                true
            }
            Some(Step::Block) => {
                self.depth -= 1;
                false
            }
            None => false,
        }
    }

    /// Leaves the innermost block: its names go, and what they hid means again what it meant. Outside all blocks all names
    /// go. Takes no memory.
    pub fn leave(&mut self)
        ensures { self.new ≡ spec.names_outside self.old }
    {
        while self.step_back() {}
    }
}
