// Parameters (C17 6.7.6.3).
ghost use Rattle.std.specs.Prelude.{◌≡◌, IfOk, OnOk};
ghost use Rattle.cc_tree.specs.Views.{types_of};
ghost use Rattle.cc_tree.specs.Views as views;
ghost use Rattle.cc_declare.specs.Naming.{name_part};
ghost use Rattle.cc_declare.specs.Parameters as spec;

use crate::checker::Checker;
use crate::names::{Named, is_lone_unnamed, name_of};
use crate::shaped::Formed;
use crate::specifiers::Specified;
use cc_base::Memory;
use cc_symbols::{Declared, Form, Life, Linkage};
use cc_tree::TypeName;
use cc_tree_notes::Counted;
use cc_types::TypeId;
use std::alloc::Global;

impl<'a> Checker<'a> {
    // The type of a parameter that is declared with this type.
    fn adjusted(&mut self, kind: Option<TypeId>) -> Result<Option<TypeId>, Memory>
        ensures { IfOk result (λ t. (self.new, t) ≡ spec.adjusted_if self.old kind) }
    {
        match kind {
            Some(t) => {
                let made = self.symbols.types.adjusted(t)?;
                Ok(Some(made))
            }
            None => Ok(None),
        }
    }

    // The declaration of a parameter.
    fn parameter_declared(&self, note: Counted, kind: Option<TypeId>) -> Declared
        ensures { result ≡ spec.parameter_declared self.now note kind }
    {
        Declared {
            form: Form::Object(Life::Parameter),
            linkage: Linkage::Without,
            kind,
            node: note.number,
            file: self.file,
            is_defined: true,
        }
    }

    // A parameter with a name (C18, C19, C20).
    fn parameter_named(
        &mut self,
        alloc: Global,
        named: Option<Named<'a>>,
        formed: Formed,
    ) -> Result<(), Memory>
        ensures { OnOk result (self.new ≡ spec.parameter_named (name_part named.entry) formed self.old) }
    {
        match named {
            Some(named) => {
                self.object(named.note, formed, true);
                let what = self.parameter_declared(named.note, formed.kind);
                self.declare(alloc, named, formed.is_judged, what)?;
                Ok(())
            }
            None => Ok(()),
        }
    }

    /// A parameter, by its specifiers and its declarator, and its type, which is adjusted (C16, C24). Its name is declared
    /// from here on.
    pub fn parameter(
        &mut self,
        alloc: Global,
        note: Counted,
        specified: Specified,
        named: Option<Named<'a>>,
        formed: Formed,
    ) -> Result<Option<TypeId>, Memory>
        ensures { IfOk result (λ t. (self.new, t)
            ≡ spec.parameter_made (name_part named.entry) note specified formed self.old) }
    {
        self.plain_specifiers(note, specified, formed.is_judged);
        let kind = self.adjusted(formed.kind)?;
        self.symbols.kinds.put(note.number, kind);
        let adjusted = Formed {
            kind,
            is_judged: formed.is_judged,
        };
        self.parameter_named(alloc, named, adjusted)?;
        Ok(kind)
    }

    /// Whether parameters are one void alone without a name, by its type: a function without parameters.
    pub fn is_void_list(&self, ps: &[TypeName<Counted>]) -> bool
        ensures { result ≡ spec.is_void_list self.now (types_of ps.now) }
    {
        match ps {
            [] => false,
            [p] => is_lone_unnamed(ps) && self.is_void_parameter(p.note),
            [_, _, ..] => false,
        }
    }

    // Whether the parameter of this node is void.
    fn is_void_parameter(&self, note: Counted) -> bool
        ensures { result ≡ spec.is_void_parameter self.now note }
    {
        match self.symbols.kinds.get(note.number) {
            Some(kind) => self.is_void_type(kind),
            None => false,
        }
    }

    // A parameter of a body.
    fn formal_of(&mut self, p: &'a TypeName<Counted>) -> Result<(), Memory>
        ensures { OnOk result (self.new ≡ spec.formal_of self.old (views.view_type p.now)) }
    {
        match name_of(&p.declarator) {
            Some(named) => self.declare_formal(named),
            None => Ok(()),
        }
    }

    /// The formals of a body, in the scope that was begun for it: the declarations of these parameters again.
    pub fn declare_formals(&mut self, ps: &'a [TypeName<Counted>]) -> Result<(), Memory>
        ensures { OnOk result (self.new ≡ spec.formals_declared (types_of ps.now) self.old) }
    {
        for p in ps {
            self.formal_of(p)?;
        }
        Ok(())
    }
}
