// What objects and members may be.
ghost use Rattle.std.specs.Prelude.{◌≡◌};
ghost use Rattle.cc_declare.specs.Objects as spec;

use crate::checker::Checker;
use crate::shaped::Formed;
use crate::shapes::lacks_length;
use crate::specifiers::{Specified, Storage};
use cc_symbols::rule;
use cc_tree_notes::Counted;
use cc_types::TypeId;

impl<'a> Checker<'a> {
    // C19 and C20 of an object of this type.
    fn object_of(&mut self, note: Counted, kind: TypeId, may_lack_length: bool)
        ensures { self.new ≡ spec.object_of self.old note kind may_lack_length }
    {
        let shape = self.symbols.types.shape(kind);
        let is_no_object = self.is_no_object(shape);
        let lacks = lacks_length(shape) && !may_lack_length;
        let is_large = self.has_too_many_cells(shape);
        self.offend_if(is_no_object, note, rule::OBJECT_TYPE);
        self.offend_if(lacks || is_large, note, rule::ARRAY_SIZE);
    }

    // The same, if there is a type.
    fn object_if(&mut self, note: Counted, kind: Option<TypeId>, may_lack_length: bool)
        ensures { self.new ≡ spec.object_if self.old note kind may_lack_length }
    {
        match kind {
            Some(kind) => self.object_of(note, kind, may_lack_length),
            None => {}
        }
    }

    /// A declarator gives an object or a member this type: C19 for void, a function and an incomplete struct; C20 for more
    /// cells than an object may have, and for an array without a length where it may not lack it. Only where it is judged.
    pub fn object(&mut self, note: Counted, formed: Formed, may_lack_length: bool)
        ensures { self.new ≡ spec.object_judged self.old note formed may_lack_length }
    {
        if formed.is_judged {
            self.object_if(note, formed.kind, may_lack_length);
        }
    }

    /// No storage class may stand here (C24).
    pub fn no_storage(&mut self, storage: Option<Storage>)
        ensures { self.new ≡ spec.no_storage self.old storage }
    {
        match storage {
            Some(storage) => self.offend(storage.note, rule::STORAGE_CLASS),
            None => {}
        }
    }

    /// No `inline` may stand in the declaration of this node (C16), where it is judged.
    pub fn no_inline(&mut self, note: Counted, inline: Option<Counted>, is_judged: bool)
        ensures { self.new ≡ spec.no_inline self.old note inline is_judged }
    {
        let is_broken = is_judged && inline.is_some();
        self.offend_if(is_broken, note, rule::INLINE);
    }

    /// The specifiers of members or of a parameter at this node: no storage class, and no `inline` where the declarators
    /// are judged.
    pub fn plain_specifiers(&mut self, note: Counted, specified: Specified, is_judged: bool)
        ensures { self.new ≡ spec.plain_specifiers self.old note specified is_judged }
    {
        self.no_storage(specified.storage);
        self.no_inline(note, specified.inline, is_judged);
    }
}
