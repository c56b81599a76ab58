// What specifiers say (C17 6.7p1).
ghost use Rattle.std.specs.Prelude.{◌≡◌, IfOk};
ghost use Rattle.cc_declare.specs.Specifying as spec;

use crate::checker::Checker;
use crate::type_words::{Core, TypeWords, shape_named};
use cc_arith::IntKind;
use cc_base::Memory;
use cc_symbols::{Declared, Form, rule};
use cc_tree::{SpecWord, StructId};
use cc_tree_notes::Counted;
use cc_types::{Shape, TypeId};

/// Where specifiers stand. The declaration of a `for` stands in a block.
#[derive(Clone, Copy, Debug, PartialEq, Eq)]
pub enum Setting {
    File,
    Block,
    Member,
    Parameter,
    TypeName,
}

/// The first of `typedef`, `extern` and `static` in a list of specifiers, with its node.
#[derive(Clone, Copy, Debug, PartialEq, Eq)]
pub struct Storage {
    pub word: SpecWord,
    pub note: Counted,
}

/// What specifiers say so far.
#[derive(Clone, Copy, Debug, PartialEq, Eq)]
pub struct Said {
    pub words: TypeWords,
    pub storage: Option<Storage>,
    pub has_two_storages: bool,
    /// The node of the first `inline`.
    pub inline: Option<Counted>,
    pub is_const: bool,
    /// Whether members or enumeration constants were there.
    pub has_body: bool,
}

/// What specifiers say: the type, unless it is missing, the storage class, and the first `inline`.
#[derive(Clone, Copy, Debug, PartialEq, Eq)]
pub struct Specified {
    pub kind: Option<TypeId>,
    pub storage: Option<Storage>,
    pub inline: Option<Counted>,
}

impl Setting {
    // Whether types may be made in specifiers there (C17).
    fn makes_types(self) -> bool
        ensures { result ≡ spec.makes_types self }
    {
        match self {
            Setting::File | Setting::Member => true,
            Setting::Block | Setting::Parameter | Setting::TypeName => false,
        }
    }
}

// What names a type of this number, if there is one.
fn core_of(kind: Option<TypeId>) -> Core
    ensures { result ≡ spec.core_of kind }
{
    match kind {
        Some(t) => Core::Type(t),
        None => Core::Untyped,
    }
}

// The type of a declaration of this form, if that is a typedef name.
fn alias_as(form: Form, kind: Option<TypeId>) -> Option<TypeId>
    ensures { result ≡ spec.alias_as form kind }
{
    match form {
        Form::Typedef => kind,
        Form::Object(_) | Form::Function | Form::Constant(_) => None,
    }
}

// The type that a typedef name stands for.
fn alias_of(declared: Option<Declared>) -> Option<TypeId>
    ensures { result ≡ spec.alias_of declared }
{
    match declared {
        Some(declared) => alias_as(declared.form, declared.kind),
        None => None,
    }
}

fn is_typedef(word: SpecWord) -> bool
    ensures { result ≡ spec.is_typedef word }
{
    matches!(word, SpecWord::Typedef)
}

// Whether a storage class is `typedef`.
fn makes_name(storage: Option<Storage>) -> bool
    ensures { result ≡ spec.makes_name storage }
{
    match storage {
        Some(storage) => is_typedef(storage.word),
        None => false,
    }
}

// The type that a struct, an enum or a typedef name is, if there is one.
fn type_in(core: Core) -> Option<TypeId>
    ensures { result ≡ spec.type_in core }
{
    match core {
        Core::Type(t) => Some(t),
        _ => None,
    }
}

impl Said {
    /// Before the first specifier.
    pub fn nothing() -> Said
        ensures { result ≡ spec.nothing_said }
    {
        Said {
            words: TypeWords::none(),
            storage: None,
            has_two_storages: false,
            inline: None,
            is_const: false,
            has_body: false,
        }
    }

    fn with_words(self, words: TypeWords) -> Said
        ensures { result ≡ spec.with_words self words }
    {
        Said {
            words,
            storage: self.storage,
            has_two_storages: self.has_two_storages,
            inline: self.inline,
            is_const: self.is_const,
            has_body: self.has_body,
        }
    }

    // `typedef`, `extern` or `static`.
    fn stored(self, note: Counted, word: SpecWord) -> Said
        ensures { result ≡ spec.storage_said self note word }
    {
        match self.storage {
            Some(_) => Said {
                words: self.words,
                storage: self.storage,
                has_two_storages: true,
                inline: self.inline,
                is_const: self.is_const,
                has_body: self.has_body,
            },
            None => Said {
                words: self.words,
                storage: Some(Storage { word, note }),
                has_two_storages: self.has_two_storages,
                inline: self.inline,
                is_const: self.is_const,
                has_body: self.has_body,
            },
        }
    }

    // `inline`.
    fn inlined(self, note: Counted) -> Said
        ensures { result ≡ spec.inline_said self note }
    {
        match self.inline {
            Some(_) => self,
            None => Said {
                words: self.words,
                storage: self.storage,
                has_two_storages: self.has_two_storages,
                inline: Some(note),
                is_const: self.is_const,
                has_body: self.has_body,
            },
        }
    }

    // `const`.
    fn made_const(self) -> Said
        ensures { result ≡ spec.const_said self }
    {
        Said {
            words: self.words,
            storage: self.storage,
            has_two_storages: self.has_two_storages,
            inline: self.inline,
            is_const: true,
            has_body: self.has_body,
        }
    }

    /// One specifier of one word more.
    pub fn word(self, note: Counted, word: SpecWord) -> Said
        ensures { result ≡ spec.word_said self note word }
    {
        match word {
            SpecWord::Typedef => self.stored(note, SpecWord::Typedef),
            SpecWord::Extern => self.stored(note, SpecWord::Extern),
            SpecWord::Static => self.stored(note, SpecWord::Static),
            SpecWord::Inline => self.inlined(note),
            SpecWord::Const => self.made_const(),
            _ => self.with_words(self.words.word(word)),
        }
    }

    /// One specifier more that names a type by itself: a struct, an enum or a typedef name. The type may be missing.
    pub fn typed(self, kind: Option<TypeId>) -> Said
        ensures { result ≡ spec.type_said self kind }
    {
        self.with_words(self.words.named(core_of(kind)))
    }

    /// One specifier with members or enumeration constants was there, if so.
    pub fn bodied_if(self, has_body: bool) -> Said
        ensures { result ≡ spec.bodied_if self has_body }
    {
        Said {
            words: self.words,
            storage: self.storage,
            has_two_storages: self.has_two_storages,
            inline: self.inline,
            is_const: self.is_const,
            has_body: self.has_body || has_body,
        }
    }

    // Whether they name one type and have one storage class at most (C15).
    fn is_right(self) -> bool
        ensures { result ≡ spec.is_right self }
    {
        self.words.name_one_type() && !self.has_two_storages
    }

    // Whether a type is made in them, a typedef name included.
    fn make_types(self) -> bool
        ensures { result ≡ spec.make_types self }
    {
        makes_name(self.storage) || self.has_body
    }
}

impl<'a> Checker<'a> {
    /// A typedef name.
    pub fn alias(&self, said: Said, name: &str) -> Said
        ensures { result ≡ spec.aliased self.now said name.now }
    {
        let declared = self.declared(self.scopes.find(name));
        said.typed(alias_of(declared))
    }

    /// The type of this form.
    pub fn made(&mut self, shape: Shape) -> Result<Option<TypeId>, Memory>
        ensures { IfOk result (λ t. (self.new, t) ≡ spec.some_made self.old shape) }
    {
        let id = self.symbols.types.intern(shape)?;
        Ok(Some(id))
    }

    /// The type of a struct, if there is one.
    pub fn struct_type(&mut self, id: Option<StructId>) -> Result<Option<TypeId>, Memory>
        ensures { IfOk result (λ t. (self.new, t) ≡ spec.struct_made self.old id) }
    {
        match id {
            Some(id) => self.made(Shape::Struct(false, id)),
            None => Ok(None),
        }
    }

    /// The type of an enum, which is `int`.
    pub fn enum_type(&mut self) -> Result<Option<TypeId>, Memory>
        ensures { IfOk result (λ t. (self.new, t) ≡ spec.enum_made self.old) }
    {
        self.made(Shape::Integer(false, IntKind::Int))
    }

    // The type that words name, without a const.
    fn bare_type(&mut self, words: TypeWords) -> Result<Option<TypeId>, Memory>
        ensures { IfOk result (λ t. (self.new, t) ≡ spec.bare_made self.old words) }
    {
        match shape_named(words.core, words.sign) {
            Some(shape) => self.made(shape),
            None => Ok(type_in(words.core)),
        }
    }

    // The same type, const if it is to be.
    fn const_type(&mut self, is_const: bool, kind: Option<TypeId>) -> Result<Option<TypeId>, Memory>
        ensures { IfOk result (λ t. (self.new, t) ≡ spec.const_made self.old is_const kind) }
    {
        match kind {
            Some(t) => {
                let made = self.symbols.types.also_const(is_const, t)?;
                Ok(Some(made))
            }
            None => Ok(None),
        }
    }

    // The type that specifiers name; none if they break C15.
    fn said_type(&mut self, said: Said) -> Result<Option<TypeId>, Memory>
        ensures { IfOk result (λ t. (self.new, t) ≡ spec.said_made self.old said) }
    {
        if said.is_right() {
            let bare = self.bare_type(said.words)?;
            self.const_type(said.is_const, bare)
        } else {
            Ok(None)
        }
    }

    /// What these specifiers say, of which this is the first node (C15, C17).
    pub fn specified(
        &mut self,
        setting: Setting,
        note: Counted,
        said: Said,
    ) -> Result<Specified, Memory>
        ensures { IfOk result (λ r. (self.new, r) ≡ spec.finished self.old setting note said) }
    {
        self.offend_if(!said.is_right(), note, rule::ONE_TYPE);
        let is_misplaced = !setting.makes_types() && said.make_types();
        self.offend_if(is_misplaced, note, rule::FILE_SCOPE_ONLY);
        let kind = self.said_type(said)?;
        Ok(Specified {
            kind,
            storage: said.storage,
            inline: said.inline,
        })
    }
}
