// What a declarator makes of a type, and what its forms break.
ghost use Rattle.std.specs.Prelude.{◌≡◌};
ghost use Rattle.cc_declare.specs.Shaping as spec;

use cc_symbols::{Offence, lesser};
use cc_tree_notes::Counted;
use cc_types::TypeId;

/// What the forms of a declarator have made so far of the type of its specifiers, the outermost form first.
///
/// A declarator is judged where its specifiers, its lengths and its parameters have types. So what its forms break is kept
/// here until all are read. One whose length is no constant is judged, but has no type.
#[derive(Clone, Copy, Debug, PartialEq, Eq)]
pub struct Shaped {
    pub kind: Option<TypeId>,
    pub is_judged: bool,
    /// The least of what its own forms break.
    pub fault: Option<Offence>,
}

/// What a declarator gives.
#[derive(Clone, Copy, Debug, PartialEq, Eq)]
pub struct Formed {
    pub kind: Option<TypeId>,
    pub is_judged: bool,
}

impl Shaped {
    /// Before the first form: the type of the specifiers.
    pub fn based(base: Option<TypeId>) -> Shaped
        ensures { result ≡ spec.based base }
    {
        Shaped {
            kind: base,
            is_judged: base.is_some(),
            fault: None,
        }
    }

    /// The same with this type.
    pub fn with_kind(self, kind: Option<TypeId>) -> Shaped
        ensures { result ≡ spec.with_kind self kind }
    {
        Shaped {
            kind,
            is_judged: self.is_judged,
            fault: self.fault,
        }
    }

    /// What isn't judged, and has no type.
    pub fn unjudged(self) -> Shaped
        ensures { result ≡ spec.unjudged self }
    {
        Shaped {
            kind: None,
            is_judged: false,
            fault: self.fault,
        }
    }

    /// The same with nothing broken, if that is excused.
    pub fn excused_if(self, is_excused: bool) -> Shaped
        ensures { result ≡ spec.excused_if self is_excused }
    {
        if is_excused {
            Shaped {
                kind: self.kind,
                is_judged: self.is_judged,
                fault: None,
            }
        } else {
            self
        }
    }

    /// The same, where a form at this node breaks a rule, if it does.
    pub fn faulted_if(self, is_broken: bool, note: Counted, rule: u8) -> Shaped
        ensures { result ≡ spec.faulted_if self is_broken note rule }
    {
        if is_broken {
            let fault = Offence {
                spot: note.spot,
                rule,
            };
            Shaped {
                kind: self.kind,
                is_judged: self.is_judged,
                fault: lesser(self.fault, Some(fault)),
            }
        } else {
            self
        }
    }

    // What is to be taken down: what is broken, if the declarator is judged.
    pub(crate) fn judged_fault(self) -> Option<Offence>
        ensures { result ≡ spec.judged_fault self }
    {
        if self.is_judged { self.fault } else { None }
    }
}
