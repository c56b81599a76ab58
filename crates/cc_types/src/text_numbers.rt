// Numbers for texts.
ghost use Rattle.std.specs.Prelude.{◌≡◌, [], IfOk};
ghost use Rattle.cc_types.specs.MemberLists as spec;

use cc_base::Memory;
use indexmap::IndexSet;
use std::alloc::Global;
use std::marker::Model;

/// Texts, each with a number, from 0 as they come. A contract sees the list of them.
#[derive(Drop)]
pub struct TextNumbers {
    texts: IndexSet<String>,
}

impl Model for TextNumbers {
    ghost use Rattle.std.specs.Prelude.{List, ℕ, map, string_bytes};

    ghost Value = { List (List ℕ) };

    ghost view = { λ t. map string_bytes t.texts.keys };
}

impl TextNumbers {
    /// No texts. Takes no memory.
    pub fn new(alloc: Global) -> TextNumbers
        ensures { result ≡ [] }
    {
        TextNumbers {
            texts: IndexSet::new(alloc),
        }
    }

    /// The number of this text, which has one from then on: equal texts have equal numbers, and others others.
    pub fn number(&mut self, alloc: Global, text: &str) -> Result<u32, Memory>
        ensures { IfOk result (λ n. (self.new, n) ≡ spec.text_numbered self.old text.now) }
    {
        if self.texts.len() > u32::MAX as usize {
            return Err(Memory);
        }
        let text = String::from_str(alloc, text)?;
        let (index, _) = self.texts.insert_full(text)?;
        Ok(index as u32)
    }
}
