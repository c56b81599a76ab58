// Specifiers.
ghost use Rattle.std.specs.Prelude.{◌≡◌, ◌<◌, map};
ghost use Rattle.cc_grammar.specs.Classes.{next_ident, starts_spec};
ghost use Rattle.cc_grammar.specs.Classes as class;
ghost use Rattle.cc_grammar.specs.Reading as spec;
ghost use Rattle.cc_tree.specs.Views.{view_constant, view_declarator, view_member, view_spec, option_of, specs_of};
ghost use Rattle.cc_parse_tokens.specs.Gives.{Gives};
ghost use Rattle.cc_parse_expr.specs.Modes.{by, inner_of};
ghost use Rattle.cc_parse_expr.specs.Parts as part;
ghost use Rattle.cc_parse_expr.specs.Nests.{Nests};

use crate::grammar::Grammar;
use crate::identifier::identifier;
use crate::mode::Mode;
use cc_base::{Spot, Text};
use cc_lex::Punct;
use cc_parse_tokens::{Cursor, Fault, SpecStart, TypedefNames, levels};
use cc_tree::{Constant, Declarator, Expr, Member, Spec};
use cc_tree_copies::copied_text;
use sqlite_items::{Boxed, Items};
use std::alloc::Global;

impl<
    'n,
    E: Fn(Global, &mut Cursor<'_>, &TypedefNames, u32, u8) -> Result<Boxed<Expr<Spot>>, Fault>,
    S: Fn(Global, &mut Cursor<'_>, &TypedefNames, u32) -> Result<Items<Spec<Spot>>, Fault>,
    D: Fn(
        Global,
        &mut Cursor<'_>,
        &TypedefNames,
        u32,
        Mode,
    ) -> Result<Boxed<Declarator<Spot>>, Fault>,
> Grammar<'n, E, S, D> {
    /// A tag, if one comes (C17 6.7.2.3).
    fn tag(&self, tokens: &mut Cursor<'_>) -> Result<Option<Text>, Fault>
        ensures { Gives (λ x. x) (by self.now spec.tag tokens.old) result tokens.new }
    {
        let Some(name) = tokens.ident() else {
            return Ok(None);
        };
        let name = copied_text(self.alloc, name)?;
        tokens.skip();
        Ok(Some(name))
    }

    /// Declarators with names, one at least, with commas between them.
    fn member_declarators(&self, tokens: &mut Cursor<'_>) -> Result<Items<Declarator<Spot>>, Fault>
        requires room { 0 < self.now.depth }
        requires nests { Nests self.now E.pre E.post S.pre S.post D.pre D.post }
        ensures { Gives (map view_declarator) (spec.separated ((inner_of self.now).declarator spec.with_name) tokens.old) result tokens.new }
    {
        let mut found = Items::new(self.alloc);
        for _round in 0..tokens.len() {
            found.push(self.inner_declarator(tokens, Mode::Named)?.into_inner())?;
            if !tokens.next_is(Punct::Comma) {
                return Ok(found);
            }
            tokens.skip();
        }
        Err(Fault::Refused)
    }

    /// Members that are declared together, with their semicolon (C17 6.7.2.1).
    fn member_line(&self, tokens: &mut Cursor<'_>) -> Result<Member<Spot>, Fault>
        requires room { 0 < self.now.depth }
        requires nests { Nests self.now E.pre E.post S.pre S.post D.pre D.post }
        ensures { Gives view_member (by self.now spec.member_line tokens.old) result tokens.new }
    {
        let note = tokens.spot();
        let specs = self.inner_specs(tokens)?;
        let declarators = self.member_declarators(tokens)?;
        tokens.take(Punct::Semicolon)?;
        Ok(Member {
            note,
            specs,
            declarators,
        })
    }

    /// The members of a struct up to the brace behind them, one line at least.
    fn member_lines(&self, tokens: &mut Cursor<'_>) -> Result<Items<Member<Spot>>, Fault>
        requires room { 0 < self.now.depth }
        requires nests { Nests self.now E.pre E.post S.pre S.post D.pre D.post }
        ensures { Gives (map view_member) (by self.now part.member_lines tokens.old) result tokens.new }
    {
        let mut found = Items::new(self.alloc);
        for _round in 0..tokens.len() {
            found.push(self.member_line(tokens)?)?;
            if tokens.next_is(Punct::RightBrace) {
                return Ok(found);
            }
        }
        Err(Fault::Refused)
    }

    /// The members of a struct in their braces, where there is room for them.
    fn member_braces(&self, tokens: &mut Cursor<'_>) -> Result<Items<Member<Spot>>, Fault>
        requires room { 0 < self.now.depth }
        requires nests { Nests self.now E.pre E.post S.pre S.post D.pre D.post }
        ensures { Gives (map view_member) (by self.now part.member_braces tokens.old) result tokens.new }
    {
        tokens.take(Punct::LeftBrace)?;
        let found = self.member_lines(tokens)?;
        tokens.take(Punct::RightBrace)?;
        Ok(found)
    }

    /// Marks a `{` that is refused for its depth alone.
    fn mark_brace(&self, tokens: &mut Cursor<'_>)
        ensures { tokens.new ≡ tokens.old }
    {
        if tokens.next_is(Punct::LeftBrace) {
            tokens.mark();
        }
    }

    /// The members of a struct in their braces, which count (C17 6.7.2.1).
    fn member_list(&self, tokens: &mut Cursor<'_>) -> Result<Items<Member<Spot>>, Fault>
        requires nests { Nests self.now E.pre E.post S.pre S.post D.pre D.post }
        ensures { Gives (map view_member) (by self.now spec.member_list tokens.old) result tokens.new }
    {
        if self.depth == 0 {
            self.mark_brace(tokens);
            return Err(Fault::Refused);
        }
        self.member_braces(tokens)
    }

    /// The value of an enumeration constant, if one is given (C17 6.7.2.2).
    fn constant_value(&self, tokens: &mut Cursor<'_>) -> Result<Option<Boxed<Expr<Spot>>>, Fault>
        requires room { 0 < self.now.depth }
        requires nests { Nests self.now E.pre E.post S.pre S.post D.pre D.post }
        ensures { Gives option_of (by self.now spec.constant_value tokens.old) result tokens.new }
    {
        if !tokens.next_is(Punct::Equal) {
            return Ok(None);
        }
        tokens.skip();
        Ok(Some(self.inner_expr(tokens, levels::CONDITIONAL)?))
    }

    /// An enumeration constant (C17 6.7.2.2).
    fn one_constant(&self, tokens: &mut Cursor<'_>) -> Result<Constant<Spot>, Fault>
        requires room { 0 < self.now.depth }
        requires nests { Nests self.now E.pre E.post S.pre S.post D.pre D.post }
        ensures { Gives view_constant (by self.now spec.one_constant tokens.old) result tokens.new }
    {
        let note = tokens.spot();
        let name = identifier(self.alloc, tokens, self.names)?;
        let value = self.constant_value(tokens)?;
        Ok(Constant { note, name, value })
    }

    /// Enumeration constants with the brace behind them, and whether a comma stands before it.
    fn constants(&self, tokens: &mut Cursor<'_>) -> Result<(Items<Constant<Spot>>, bool), Fault>
        requires room { 0 < self.now.depth }
        requires nests { Nests self.now E.pre E.post S.pre S.post D.pre D.post }
        ensures { Gives (λ x. (map view_constant x.0, x.1)) (by self.now part.constants tokens.old) result tokens.new }
    {
        let mut found = Items::new(self.alloc);
        for _round in 0..tokens.len() {
            found.push(self.one_constant(tokens)?)?;
            if !tokens.next_is(Punct::Comma) {
                tokens.take(Punct::RightBrace)?;
                return Ok((found, false));
            }
            tokens.skip();
            if tokens.next_is(Punct::RightBrace) {
                tokens.skip();
                return Ok((found, true));
            }
        }
        Err(Fault::Refused)
    }

    /// Enumeration constants in their braces, where there is room for them.
    fn constant_braces(
        &self,
        tokens: &mut Cursor<'_>,
    ) -> Result<(Items<Constant<Spot>>, bool), Fault>
        requires room { 0 < self.now.depth }
        requires nests { Nests self.now E.pre E.post S.pre S.post D.pre D.post }
        ensures { Gives (λ x. (map view_constant x.0, x.1)) (by self.now part.constant_braces tokens.old) result tokens.new }
    {
        tokens.take(Punct::LeftBrace)?;
        self.constants(tokens)
    }

    /// Enumeration constants in their braces, which count, and whether a comma stands behind the last (C17 6.7.2.2).
    fn constant_list(&self, tokens: &mut Cursor<'_>) -> Result<(Items<Constant<Spot>>, bool), Fault>
        requires nests { Nests self.now E.pre E.post S.pre S.post D.pre D.post }
        ensures { Gives (λ x. (map view_constant x.0, x.1)) (by self.now spec.constant_list tokens.old) result tokens.new }
    {
        if self.depth == 0 {
            self.mark_brace(tokens);
            return Err(Fault::Refused);
        }
        self.constant_braces(tokens)
    }

    /// Whether there is no tag.
    fn is_untagged(&self, tag: &Option<Text>) -> bool
        ensures { result ≡ by self.now spec.untagged tag.now }
    {
        tag.is_none()
    }

    /// What stands behind `struct` (C17 6.7.2.1).
    fn struct_spec(&self, tokens: &mut Cursor<'_>, note: Spot) -> Result<Spec<Spot>, Fault>
        requires nests { Nests self.now E.pre E.post S.pre S.post D.pre D.post }
        ensures { Gives view_spec (by self.now spec.spec_by class.spec_struct note tokens.old) result tokens.new }
    {
        tokens.skip();
        let tag = self.tag(tokens)?;
        self.struct_of(tokens, note, tag)
    }

    /// A struct of this tag, with the members that come.
    fn struct_of(
        &self,
        tokens: &mut Cursor<'_>,
        note: Spot,
        tag: Option<Text>,
    ) -> Result<Spec<Spot>, Fault>
        requires nests { Nests self.now E.pre E.post S.pre S.post D.pre D.post }
        ensures { Gives view_spec (by self.now part.struct_of note tag tokens.old) result tokens.new }
    {
        if tokens.next_is(Punct::LeftBrace) || self.is_untagged(&tag) {
            let members = self.member_list(tokens)?;
            return Ok(Spec::Struct(note, tag, members));
        }
        Ok(Spec::Struct(note, tag, Items::new(self.alloc)))
    }

    /// What stands behind `enum` (C17 6.7.2.2).
    fn enum_spec(&self, tokens: &mut Cursor<'_>, note: Spot) -> Result<Spec<Spot>, Fault>
        requires nests { Nests self.now E.pre E.post S.pre S.post D.pre D.post }
        ensures { Gives view_spec (by self.now spec.spec_by class.spec_enum note tokens.old) result tokens.new }
    {
        tokens.skip();
        let tag = self.tag(tokens)?;
        self.enum_of(tokens, note, tag)
    }

    /// An enumeration of this tag, with the constants that come.
    fn enum_of(
        &self,
        tokens: &mut Cursor<'_>,
        note: Spot,
        tag: Option<Text>,
    ) -> Result<Spec<Spot>, Fault>
        requires nests { Nests self.now E.pre E.post S.pre S.post D.pre D.post }
        ensures { Gives view_spec (by self.now part.enum_of note tag tokens.old) result tokens.new }
    {
        if tokens.next_is(Punct::LeftBrace) || self.is_untagged(&tag) {
            let (constants, trailing) = self.constant_list(tokens)?;
            return Ok(Spec::Enum(note, tag, constants, trailing));
        }
        Ok(Spec::Enum(note, tag, Items::new(self.alloc), false))
    }

    /// A typedef name (C17 6.7.8).
    fn named_spec(&self, tokens: &mut Cursor<'_>, note: Spot) -> Result<Spec<Spot>, Fault>
        ensures { Gives view_spec (part.named_by (next_ident tokens.old) note tokens.old) result tokens.new }
    {
        let Some(name) = tokens.ident() else {
            return Err(Fault::Refused);
        };
        let name = copied_text(self.alloc, name)?;
        tokens.skip();
        Ok(Spec::Named(note, name))
    }

    /// A specifier that begins so.
    fn spec_by(
        &self,
        tokens: &mut Cursor<'_>,
        start: SpecStart,
        note: Spot,
    ) -> Result<Spec<Spot>, Fault>
        requires nests { Nests self.now E.pre E.post S.pre S.post D.pre D.post }
        ensures { Gives view_spec (by self.now part.spec_of_class start note tokens.old) result tokens.new }
    {
        match start {
            SpecStart::Word(word) => {
                tokens.skip();
                Ok(Spec::Word(note, word))
            }
            SpecStart::Named => self.named_spec(tokens, note),
            SpecStart::Struct => self.struct_spec(tokens, note),
            SpecStart::Enum => self.enum_spec(tokens, note),
            SpecStart::Nothing => Err(Fault::Refused),
        }
    }

    /// A specifier (C17 6.7.1 to 6.7.4).
    #[tactic(auto, using(crate::proofs::SpecClasses::spec_by_class))]
    fn spec(&self, tokens: &mut Cursor<'_>) -> Result<Spec<Spot>, Fault>
        requires nests { Nests self.now E.pre E.post S.pre S.post D.pre D.post }
        ensures { Gives view_spec (by self.now part.spec tokens.old) result tokens.new }
    {
        let start = tokens.spec_start(self.names);
        let note = tokens.spot();
        self.spec_by(tokens, start, note)
    }

    /// Specifiers, one at least, as long as another begins.
    pub fn specs(&self, tokens: &mut Cursor<'_>) -> Result<Items<Spec<Spot>>, Fault>
        requires nests { Nests self.now E.pre E.post S.pre S.post D.pre D.post }
        ensures { Gives specs_of (by self.now spec.specs tokens.old) result tokens.new }
    {
        self.spec_list(tokens)
    }

    /// Specifiers as they come, one at least.
    fn spec_list(&self, tokens: &mut Cursor<'_>) -> Result<Items<Spec<Spot>>, Fault>
        requires nests { Nests self.now E.pre E.post S.pre S.post D.pre D.post }
        ensures { Gives (map view_spec) (spec.repeated (starts_spec self.now.names.now) (by self.now part.spec) tokens.old) result tokens.new }
    {
        let mut found = Items::new(self.alloc);
        for _round in 0..tokens.len() {
            found.push(self.spec(tokens)?)?;
            if !tokens.starts_spec(self.names) {
                return Ok(found);
            }
        }
        Err(Fault::Refused)
    }
}
