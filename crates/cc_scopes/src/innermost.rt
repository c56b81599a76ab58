// The innermost declaration of each name. A name whose declarations are all gone stays in the map, with none.
ghost use Rattle.std.specs.Prelude.{◌≡◌, ℕ, List, None, OnOk, OnErr, if◌then◌else◌};
ghost use Rattle.std.specs.Str.{bytes_eq};
ghost use Rattle.cc_scopes.specs.Innermost.{binding_in};

use cc_base::Memory;
use indexmap::IndexMap;

/// The number of a declaration, and how many blocks are round it.
#[derive(Clone, Copy)]
pub struct Binding {
    pub declaration: u32,
    pub depth: u32,
}

/// The innermost declaration of a name.
pub fn look_up(innermost: &IndexMap<&str, Option<Binding>>, name: &str) -> Option<Binding>
    ensures { result ≡ binding_in innermost.now.entries name.now }
{
    match innermost.get(name) {
        Some(binding) => *binding,
        None => None,
    }
}

/// Binds a name to this declaration, or to none. Memory is wanted for a name that the map doesn't have alone.
pub fn bind<'a>(
    innermost: &mut IndexMap<&'a str, Option<Binding>>,
    name: &'a str,
    binding: Option<Binding>,
) -> Result<(), Memory>
    ensures ok { OnOk result ((x : List ℕ) → binding_in innermost.new.entries x
        ≡ (if bytes_eq x name.now then binding else binding_in innermost.old.entries x)) }
    ensures err { OnErr result (innermost.new.entries ≡ innermost.old.entries) }
    ensures unbound { OnErr result (binding_in innermost.old.entries name.now ≡ None) }
{
    match innermost.insert(name, binding) {
        Ok(_) => Ok(()),
        Err(_) => Err(Memory),
    }
}
