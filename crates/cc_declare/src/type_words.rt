// The words of a type (C17 6.7.2).
ghost use Rattle.std.specs.Prelude.{◌≡◌};
ghost use Rattle.cc_declare.specs.TypeWords as spec;

use cc_arith::IntKind;
use cc_tree::SpecWord;
use cc_types::{Shape, TypeId};

/// `signed` or `unsigned`.
#[derive(Clone, Copy, Debug, PartialEq, Eq)]
pub enum Sign {
    Unsaid,
    Signed,
    Unsigned,
}

/// What names a type beside `int`, `signed` and `unsigned`.
#[derive(Clone, Copy, Debug, PartialEq, Eq)]
pub enum Core {
    Nothing,
    Void,
    Bool,
    Char,
    Short,
    Long,
    LongLong,
    /// The type of a struct, an enum or a typedef name.
    Type(TypeId),
    /// One of these that has no type, since a rule is broken.
    Untyped,
}

/// The words of a type so far, in any order.
#[derive(Clone, Copy, Debug, PartialEq, Eq)]
pub struct TypeWords {
    pub core: Core,
    pub sign: Sign,
    pub has_int: bool,
    /// Whether they name no type of the profile, whatever comes (C15).
    pub is_wrong: bool,
}

// Whether nothing has been said but `int`, `signed` and `unsigned`.
fn is_nothing(core: Core) -> bool
    ensures { result ≡ spec.is_nothing core }
{
    matches!(core, Core::Nothing)
}

// What one `long` more makes of this; nothing, if it can't stand there.
fn one_long_more(core: Core) -> Option<Core>
    ensures { result ≡ spec.one_long_more core }
{
    match core {
        Core::Nothing => Some(Core::Long),
        Core::Long => Some(Core::LongLong),
        _ => None,
    }
}

impl TypeWords {
    /// No words.
    pub fn none() -> TypeWords
        ensures { result ≡ spec.no_words }
    {
        TypeWords {
            core: Core::Nothing,
            sign: Sign::Unsaid,
            has_int: false,
            is_wrong: false,
        }
    }

    fn wrong(self) -> TypeWords
        ensures { result ≡ spec.wrong self }
    {
        TypeWords {
            core: self.core,
            sign: self.sign,
            has_int: self.has_int,
            is_wrong: true,
        }
    }

    fn with_core(self, core: Core) -> TypeWords
        ensures { result ≡ spec.with_core self core }
    {
        TypeWords {
            core,
            sign: self.sign,
            has_int: self.has_int,
            is_wrong: self.is_wrong,
        }
    }

    /// One word more that names a type by itself.
    pub fn named(self, core: Core) -> TypeWords
        ensures { result ≡ spec.core_named self core }
    {
        if is_nothing(self.core) {
            self.with_core(core)
        } else {
            self.wrong()
        }
    }

    fn long(self) -> TypeWords
        ensures { result ≡ spec.long_said self }
    {
        match one_long_more(self.core) {
            Some(core) => self.with_core(core),
            None => self.wrong(),
        }
    }

    fn int(self) -> TypeWords
        ensures { result ≡ spec.int_said self }
    {
        if self.has_int {
            self.wrong()
        } else {
            TypeWords {
                core: self.core,
                sign: self.sign,
                has_int: true,
                is_wrong: self.is_wrong,
            }
        }
    }

    fn signed(self, sign: Sign) -> TypeWords
        ensures { result ≡ spec.sign_said self sign }
    {
        match self.sign {
            Sign::Unsaid => TypeWords {
                core: self.core,
                sign,
                has_int: self.has_int,
                is_wrong: self.is_wrong,
            },
            Sign::Signed | Sign::Unsigned => self.wrong(),
        }
    }

    /// One word more; words that say nothing of the type change nothing.
    pub fn word(self, word: SpecWord) -> TypeWords
        ensures { result ≡ spec.word_said self word }
    {
        match word {
            SpecWord::Void => self.named(Core::Void),
            SpecWord::Bool => self.named(Core::Bool),
            SpecWord::Char => self.named(Core::Char),
            SpecWord::Short => self.named(Core::Short),
            SpecWord::Long => self.long(),
            SpecWord::Int => self.int(),
            SpecWord::Signed => self.signed(Sign::Signed),
            SpecWord::Unsigned => self.signed(Sign::Unsigned),
            SpecWord::Typedef | SpecWord::Extern | SpecWord::Static => self,
            SpecWord::Inline | SpecWord::Const => self,
        }
    }

    // Whether neither `int`, `signed` nor `unsigned` has been said.
    fn is_bare(self) -> bool
        ensures { result ≡ spec.is_bare self }
    {
        !self.has_int && matches!(self.sign, Sign::Unsaid)
    }

    // Whether these words together name a type.
    fn is_whole(self) -> bool
        ensures { result ≡ spec.is_whole self }
    {
        match self.core {
            Core::Nothing => !self.is_bare(),
            Core::Void | Core::Bool | Core::Type(_) | Core::Untyped => self.is_bare(),
            Core::Char => !self.has_int,
            Core::Short | Core::Long | Core::LongLong => true,
        }
    }

    /// Whether these words name a type, and one alone (C15).
    pub fn name_one_type(self) -> bool
        ensures { result ≡ spec.name_one_type self }
    {
        !self.is_wrong && self.is_whole()
    }
}

/// The one of two kinds, for what isn't unsigned and for what is.
fn signed_or(sign: Sign, signed: IntKind, unsigned: IntKind) -> IntKind
    ensures { result ≡ spec.signed_or sign signed unsigned }
{
    match sign {
        Sign::Unsaid | Sign::Signed => signed,
        Sign::Unsigned => unsigned,
    }
}

// Plain `char`, or one with its sign.
fn char_kind(sign: Sign) -> IntKind
    ensures { result ≡ spec.char_kind sign }
{
    match sign {
        Sign::Unsaid => IntKind::Char,
        Sign::Signed => IntKind::SChar,
        Sign::Unsigned => IntKind::UChar,
    }
}

/// The form of the type that words name; none for a struct, an enum or a typedef name.
pub fn shape_named(core: Core, sign: Sign) -> Option<Shape>
    ensures { result ≡ spec.shape_named core sign }
{
    match core {
        Core::Void => Some(Shape::Void(false)),
        Core::Bool => Some(Shape::Integer(false, IntKind::Bool)),
        Core::Char => Some(Shape::Integer(false, char_kind(sign))),
        Core::Nothing => Some(integer(sign, IntKind::Int, IntKind::UInt)),
        Core::Short => Some(integer(sign, IntKind::Short, IntKind::UShort)),
        Core::Long => Some(integer(sign, IntKind::Long, IntKind::ULong)),
        Core::LongLong => Some(integer(sign, IntKind::LLong, IntKind::ULLong)),
        Core::Type(_) | Core::Untyped => None,
    }
}

fn integer(sign: Sign, signed: IntKind, unsigned: IntKind) -> Shape
    ensures { result ≡ spec.integer sign signed unsigned }
{
    Shape::Integer(false, signed_or(sign, signed, unsigned))
}
