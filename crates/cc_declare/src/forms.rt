// The types that the forms of a declarator make, and the rules on them.
ghost use Rattle.std.specs.Prelude.{◌≡◌, IfOk, OnOk};
ghost use Rattle.cc_declare.specs.Forms as spec;

use crate::checker::Checker;
use crate::enumerators::ConstantValue;
use crate::shaped::{Formed, Shaped};
use crate::shapes::{is_no_result, is_void, lacks_length};
use cc_base::Memory;
use cc_symbols::{Slots, rule};
use cc_tree_notes::Counted;
use cc_types::{Shape, TypeId};
use std::alloc::Global;

// C20: how deep a type is at most.
const DEEPEST: u64 = 64;

// The length that an array type keeps of one that is written, which may be wrong; there is then an offence.
fn kept_length(n: i128) -> u64
    ensures { result ≡ spec.kept_length n }
{
    if n < 1 {
        0
    } else if n > 1_048_576 {
        1_048_577
    } else {
        n as u64
    }
}

// The length of an array type; for a value that isn't known there is none.
fn length_of(length: ConstantValue) -> Option<u64>
    ensures { result ≡ spec.length_of length }
{
    match length {
        ConstantValue::Is(n) => Some(kept_length(n)),
        _ => None,
    }
}

// Whether a length is missing where it has to be there, or is below 1 (C20).
fn is_wrong_length(length: ConstantValue, may_lack: bool) -> bool
    ensures { result ≡ spec.is_wrong_length length may_lack }
{
    match length {
        ConstantValue::Missing => !may_lack,
        ConstantValue::Is(n) => n < 1,
        _ => false,
    }
}

impl<'a> Checker<'a> {
    /// A pointer to this (C22).
    pub fn pointer(
        &mut self,
        note: Counted,
        is_const: bool,
        shaped: Shaped,
    ) -> Result<Shaped, Memory>
        ensures { IfOk result (λ r. (self.new, r) ≡ spec.pointer_made self.old note is_const shaped) }
    {
        match shaped.kind {
            None => Ok(shaped),
            Some(t) => {
                let is_broken = is_void(self.symbols.types.shape(t));
                let made = self.symbols.types.intern(Shape::Pointer(is_const, t))?;
                Ok(
                    shaped
                        .faulted_if(is_broken, note, rule::POINTER_TO_VOID)
                        .with_kind(Some(made)),
                )
            }
        }
    }

    // The same, where these are to be the elements of an array (C19, C20).
    fn of_elements(&self, note: Counted, a: Shape, shaped: Shaped) -> Shaped
        ensures { result ≡ spec.of_elements self.now note a shaped }
    {
        let is_wrong = lacks_length(a) || self.has_too_many_cells(a);
        shaped
            .faulted_if(self.is_no_object(a), note, rule::OBJECT_TYPE)
            .faulted_if(is_wrong, note, rule::ARRAY_SIZE)
    }

    // An array of these elements, of this length (C19, C20).
    fn array_of(
        &mut self,
        note: Counted,
        length: ConstantValue,
        may_lack: bool,
        shaped: Shaped,
        element: TypeId,
    ) -> Result<Shaped, Memory>
        ensures { IfOk result (λ r. (self.new, r) ≡ spec.array_of_made self.old note length may_lack shaped element) }
    {
        let shape = self.symbols.types.shape(element);
        let shaped = self.of_elements(note, shape, shaped);
        let made = self.symbols.types.array(element, length_of(length))?;
        let is_large = self.has_too_many_cells(self.symbols.types.shape(made));
        let is_broken = is_wrong_length(length, may_lack) || is_large;
        Ok(
            shaped
                .faulted_if(is_broken, note, rule::ARRAY_SIZE)
                .with_kind(Some(made)),
        )
    }

    // The same of this, if it has a type.
    fn array_with(
        &mut self,
        note: Counted,
        length: ConstantValue,
        may_lack: bool,
        shaped: Shaped,
    ) -> Result<Shaped, Memory>
        ensures { IfOk result (λ r. (self.new, r) ≡ spec.array_with self.old note length may_lack shaped) }
    {
        match shaped.kind {
            Some(t) => self.array_of(note, length, may_lack, shaped, t),
            None => Ok(shaped),
        }
    }

    // An array of this whose length is no constant: it has no type.
    fn array_without(&self, note: Counted, shaped: Shaped) -> Shaped
        ensures { result ≡ spec.array_without self.now note shaped }
    {
        match shaped.kind {
            Some(t) => {
                let shape = self.symbols.types.shape(t);
                self.of_elements(note, shape, shaped).with_kind(None)
            }
            None => shaped,
        }
    }

    /// An array of this. Where its length has no type, nothing is judged; where it is no constant, there is no type.
    pub fn array(
        &mut self,
        note: Counted,
        length: ConstantValue,
        may_lack: bool,
        shaped: Shaped,
    ) -> Result<Shaped, Memory>
        ensures { IfOk result (λ r. (self.new, r) ≡ spec.array_made self.old note length may_lack shaped) }
    {
        match length {
            ConstantValue::Untyped => Ok(shaped.unjudged()),
            ConstantValue::NoConstant => Ok(self.array_without(note, shaped)),
            ConstantValue::Missing => {
                self.array_with(note, ConstantValue::Missing, may_lack, shaped)
            }
            ConstantValue::Is(n) => self.array_with(note, ConstantValue::Is(n), may_lack, shaped),
        }
    }

    // The type of a function with one parameter more before those of another.
    fn takes_one(&mut self, kind: Option<TypeId>, f: TypeId) -> Result<TypeId, Memory>
        ensures { IfOk result (λ r. (self.new, r) ≡ spec.taking_one self.old kind f) }
    {
        match kind {
            Some(t) => self.symbols.types.taking(t, f),
            None => Ok(f),
        }
    }

    // The same for each of these parameters, the last first.
    fn takes_all(&mut self, kinds: &[Option<TypeId>], f: TypeId) -> Result<TypeId, Memory>
        ensures { IfOk result (λ r. (self.new, r) ≡ spec.taking_all kinds.now f self.old) }
    {
        let mut f = f;
        for kind in kinds {
            f = self.takes_one(*kind, f)?;
        }
        Ok(f)
    }

    // Whether one of these types is missing.
    fn is_untyped(kinds: &[Option<TypeId>]) -> bool
        ensures { result ≡ spec.is_untyped kinds.now }
    {
        for kind in kinds {
            if kind.is_none() {
                return true;
            }
        }
        false
    }

    // Whether one of these types is a struct.
    fn has_struct(&self, kinds: &[Option<TypeId>]) -> bool
        ensures { result ≡ spec.has_struct self.now kinds.now }
    {
        for kind in kinds {
            if self.is_struct_type(*kind) {
                return true;
            }
        }
        false
    }

    /// The types of a list of parameters; of one void alone without a name there are none (C17 6.7.6.3, paragraph 10).
    pub fn listed(
        &self,
        alloc: Global,
        is_lone_unnamed: bool,
        kinds: Slots<Option<TypeId>>,
    ) -> Slots<Option<TypeId>>
        ensures { result ≡ spec.listed self.now is_lone_unnamed kinds }
    {
        if is_lone_unnamed && self.is_void_alone(kinds.as_slice()) {
            Slots::new(alloc)
        } else {
            kinds
        }
    }

    // Whether this is one type, which is void.
    fn is_void_alone(&self, kinds: &[Option<TypeId>]) -> bool
        ensures { result ≡ spec.is_void_alone self.now kinds.now }
    {
        match kinds {
            [] => false,
            [kind] => self.is_void_type(*kind),
            [_, _, ..] => false,
        }
    }

    // A function with these parameters, the last first, and this result (C21).
    fn function_of(
        &mut self,
        note: Counted,
        kinds: &[Option<TypeId>],
        shaped: Shaped,
        value: TypeId,
    ) -> Result<Shaped, Memory>
        ensures { IfOk result (λ r. (self.new, r) ≡ spec.function_of_made self.old note kinds.now shaped value) }
    {
        let is_broken = is_no_result(self.symbols.types.shape(value)) || self.has_struct(kinds);
        let f = self.symbols.types.function(value)?;
        let made = self.takes_all(kinds, f)?;
        Ok(
            shaped
                .faulted_if(is_broken, note, rule::FUNCTION_TYPE)
                .with_kind(Some(made)),
        )
    }

    /// A function with these parameters and this as its result. Where a parameter has no type, nothing is judged.
    pub fn function(
        &mut self,
        note: Counted,
        kinds: Slots<Option<TypeId>>,
        shaped: Shaped,
    ) -> Result<Shaped, Memory>
        ensures { IfOk result (λ r. (self.new, r) ≡ spec.function_made self.old note kinds shaped) }
    {
        if Checker::is_untyped(kinds.as_slice()) {
            return Ok(shaped.unjudged());
        }
        match shaped.kind {
            None => {
                let is_broken = self.has_struct(kinds.as_slice());
                Ok(shaped.faulted_if(is_broken, note, rule::FUNCTION_TYPE))
            }
            Some(value) => {
                let mut kinds = kinds;
                kinds.reverse();
                self.function_of(note, kinds.as_slice(), shaped, value)
            }
        }
    }

    // The depth of a type.
    fn depth(&mut self, kind: TypeId) -> Result<u64, Memory>
        ensures { IfOk result (λ n. (self.new, n) ≡ spec.depth_asked self.old kind) }
    {
        self.symbols
            .depths
            .catch_up(&self.symbols.types, &self.symbols.structs)?;
        let shape = self.symbols.types.shape(kind);
        Ok(
            self.symbols
                .depths
                .depth(&self.symbols.structs, shape)
                .whole,
        )
    }

    // What is too deep at this node (C20) has no type.
    fn limited_at(&mut self, note: Counted, shaped: Shaped) -> Result<Shaped, Memory>
        ensures { IfOk result (λ r. (self.new, r) ≡ spec.limited_at self.old note shaped) }
    {
        match shaped.kind {
            Some(t) => {
                let depth = self.depth(t)?;
                Ok(limited_by(note, depth > DEEPEST, shaped))
            }
            None => Ok(shaped),
        }
    }

    // The same, if there is a node.
    fn limited(&mut self, note: Option<Counted>, shaped: Shaped) -> Result<Shaped, Memory>
        ensures { IfOk result (λ r. (self.new, r) ≡ spec.limited self.old note shaped) }
    {
        match note {
            Some(note) => self.limited_at(note, shaped),
            None => Ok(shaped),
        }
    }

    /// What a declarator gives, whose forms made this; what they break is taken down, where it is judged. `note` is that of
    /// its outermost form.
    pub fn formed(&mut self, note: Option<Counted>, shaped: Shaped) -> Result<Formed, Memory>
        ensures { IfOk result (λ r. (self.new, r) ≡ spec.formed self.old note shaped) }
    {
        let shaped = self.limited(note, shaped)?;
        self.settle(shaped.judged_fault());
        Ok(Formed {
            kind: shaped.kind,
            is_judged: shaped.is_judged,
        })
    }

    /// The type of a type name, whose node this is; `outermost` is the note of its outermost form. `(void *)` is excused
    /// from C22 where it stands before a zero.
    pub fn type_name(
        &mut self,
        note: Counted,
        outermost: Option<Counted>,
        is_before_zero: bool,
        shaped: Shaped,
    ) -> Result<(), Memory>
        ensures { OnOk result (self.new ≡ spec.type_name_made self.old note outermost is_before_zero shaped) }
    {
        let is_excused = is_before_zero && self.is_void_pointer(shaped.kind);
        let formed = self.formed(outermost, shaped.excused_if(is_excused))?;
        self.symbols.kinds.put(note.number, formed.kind);
        Ok(())
    }
}

fn limited_by(note: Counted, is_deep: bool, shaped: Shaped) -> Shaped
    ensures { result ≡ spec.limited_by note is_deep shaped }
{
    if is_deep {
        shaped
            .faulted_if(true, note, rule::ARRAY_SIZE)
            .with_kind(None)
    } else {
        shaped
    }
}
