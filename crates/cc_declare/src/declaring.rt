// How names are declared.
ghost use Rattle.std.specs.Prelude.{◌≡◌, OnOk, IfOk};
ghost use Rattle.cc_declare.specs.Declaring as spec;

use crate::checker::Checker;
use crate::names::Named;
use cc_base::Memory;
use cc_symbols::{Declared, Form, Life, rule};
use cc_tree_notes::Counted;
use cc_types::TypeId;
use std::alloc::Global;

impl<'a> Checker<'a> {
    // Takes down what the name at this node declares, and the type there.
    fn bind(&mut self, note: Counted, number: u32, kind: Option<TypeId>)
        ensures { self.new ≡ spec.bound self.old note number kind }
    {
        self.symbols.names.put(note.number, Some(number));
        self.symbols.kinds.put(note.number, kind);
    }

    /// One declaration more, and its number. It hides the one that this scope has of this name, if there is one.
    pub fn introduce(
        &mut self,
        alloc: Global,
        named: Named<'a>,
        what: Declared,
    ) -> Result<u32, Memory>
        ensures { IfOk result (λ n. (self.new, n) ≡ spec.introduced self.old named.entry.note named.entry.name.now what) }
    {
        let number = self.symbols.declare(alloc, named.name, what)?;
        self.bind(named.note, number, what.kind);
        self.scopes.declare(named.name, number)?;
        Ok(number)
    }

    // C18, for a name that this very scope has, if its declarator is judged.
    fn once(&mut self, note: Counted, name: &str, is_judged: bool)
        ensures { self.new ≡ spec.checked_once self.old note name.now is_judged }
    {
        let repeats = is_judged && self.scopes.is_here(name);
        self.offend_if(repeats, note, rule::NEW_NAME);
    }

    /// One declaration more of a name that has to be new in its scope (C18), and its number.
    pub fn declare(
        &mut self,
        alloc: Global,
        named: Named<'a>,
        is_judged: bool,
        what: Declared,
    ) -> Result<u32, Memory>
        ensures { IfOk result (λ n. (self.new, n)
            ≡ spec.declared_once self.old named.entry.note named.entry.name.now is_judged what) }
    {
        self.once(named.note, named.name, is_judged);
        self.introduce(alloc, named, what)
    }

    /// One declarator more of a declaration, of which `what` is known from then on.
    pub fn declare_again(
        &mut self,
        named: Named<'a>,
        number: u32,
        what: Declared,
        kind: Option<TypeId>,
    )
        ensures { self.new ≡ spec.declared_again self.old named.entry.note number what kind }
    {
        self.symbols.declared.put(number, what);
        self.bind(named.note, number, kind);
    }

    // What is known of a declaration becomes what `change` makes of it.
    fn with_kind(&mut self, number: u32, kind: TypeId)
        ensures { self.new ≡ spec.with_kind self.old number kind }
    {
        match self.symbols.declared.get(number) {
            Some(declared) => self.symbols.declared.put(number, typed(declared, kind)),
            None => {}
        }
    }

    /// Completes the type of a declaration and that of its name: of an array whose initialiser tells the length.
    pub fn retype(&mut self, note: Counted, number: u32, kind: TypeId)
        ensures { self.new ≡ spec.retyped self.old note number kind }
    {
        self.with_kind(number, kind);
        self.symbols.kinds.put(note.number, Some(kind));
    }

    // The declaration is that of a formal.
    fn enliven(&mut self, number: u32)
        ensures { self.new ≡ spec.enlivened self.old number }
    {
        match self.symbols.declared.get(number) {
            Some(declared) => self.symbols.declared.put(number, formal(declared)),
            None => {}
        }
    }

    /// A parameter of a body, declared in the body's scope by the declaration that it has.
    pub fn declare_formal(&mut self, named: Named<'a>) -> Result<(), Memory>
        ensures { OnOk result (self.new ≡ spec.formal_declared self.old named.entry.note named.entry.name.now) }
    {
        match self.symbols.names.get(named.note.number) {
            Some(Some(number)) => {
                self.enliven(number);
                self.scopes.declare(named.name, number)
            }
            _ => Ok(()),
        }
    }
}

// The same declaration with this type.
fn typed(declared: Declared, kind: TypeId) -> Declared
    ensures { result ≡ spec.typed declared kind }
{
    Declared {
        form: declared.form,
        linkage: declared.linkage,
        kind: Some(kind),
        node: declared.node,
        file: declared.file,
        is_defined: declared.is_defined,
    }
}

// The same declaration, of a formal.
fn formal(declared: Declared) -> Declared
    ensures { result ≡ spec.formal declared }
{
    Declared {
        form: Form::Object(Life::Formal),
        linkage: declared.linkage,
        kind: declared.kind,
        node: declared.node,
        file: declared.file,
        is_defined: declared.is_defined,
    }
}
