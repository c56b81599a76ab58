// Declarators.
ghost use Rattle.std.specs.Prelude.{◌≡◌, ◌<◌, ◌&&◌, nat_lt, Ok};
ghost use Rattle.cc_grammar.specs.Classes.{next_ident};
ghost use Rattle.cc_grammar.specs.Outlines as outline;
ghost use Rattle.cc_grammar.specs.Reading as spec;
ghost use Rattle.cc_tree.specs.Depth.{declarator_depth};
ghost use Rattle.cc_tree.specs.Views.{view_declarator, option_of};
ghost use Rattle.cc_parse_tokens.specs.Gives.{Gives};
ghost use Rattle.cc_parse_expr.specs.Modes.{mode_of, by};
ghost use Rattle.cc_parse_expr.specs.Parts as part;
ghost use Rattle.cc_parse_expr.specs.Nests.{Nests};

use crate::grammar::Grammar;
use crate::identifier::identifier;
use crate::mode::Mode;
use cc_base::Spot;
use cc_lex::{Keyword, Punct};
use cc_parse_tokens::{Cursor, Fault, TypedefNames, levels};
use cc_tree::{Declarator, Expr, Spec};
use cc_tree_limits::declarator_fits;
use sqlite_items::{Boxed, Items};
use std::alloc::Global;

/// Whether a declarator has a name.
pub fn is_named(d: &Declarator<Spot>) -> bool
    ensures { result ≡ outline.is_named (view_declarator d.now) }
{
    match d {
        Declarator::Name(_, _) => true,
        Declarator::Nameless => false,
        Declarator::Pointer(_, _, d) => is_named(d.get()),
        Declarator::Array(_, d, _) => is_named(d.get()),
        Declarator::Func(_, d, _) => is_named(d.get()),
        Declarator::Paren(_, d) => is_named(d.get()),
    }
}

/// Whether something is written for a declarator.
pub fn is_written(d: &Declarator<Spot>) -> bool
    ensures { result ≡ outline.is_written (view_declarator d.now) }
{
    !matches!(d, Declarator::Nameless)
}

/// The spot of a declarator, or `other` for one that isn't written.
pub fn spot_or(d: &Declarator<Spot>, other: Spot) -> Spot
    ensures { result ≡ spec.spot_or (view_declarator d.now) other }
{
    match d {
        Declarator::Nameless => other,
        Declarator::Name(note, _)
        | Declarator::Pointer(note, _, _)
        | Declarator::Array(note, _, _)
        | Declarator::Func(note, _, _)
        | Declarator::Paren(note, _) => *note,
    }
}

/// The spot of a form around a declarator: the name's, or `first`, where its first token stands, if there is no name.
pub fn opening(d: &Declarator<Spot>, first: Spot) -> Spot
    ensures { result ≡ spec.opening (view_declarator d.now) first }
{
    if is_named(d) {
        spot_or(d, first)
    } else {
        first
    }
}

impl<
    'n,
    E: Fn(Global, &mut Cursor<'_>, &TypedefNames, u32, u8) -> Result<Boxed<Expr<Spot>>, Fault>,
    S: Fn(Global, &mut Cursor<'_>, &TypedefNames, u32) -> Result<Items<Spec<Spot>>, Fault>,
    D: Fn(
        Global,
        &mut Cursor<'_>,
        &TypedefNames,
        u32,
        Mode,
    ) -> Result<Boxed<Declarator<Spot>>, Fault>,
> Grammar<'n, E, S, D> {
    /// The length of an array behind its `[`, with the `]` (C17 6.7.6.2).
    fn array_length(&self, tokens: &mut Cursor<'_>) -> Result<Option<Boxed<Expr<Spot>>>, Fault>
        requires room { 0 < self.now.depth }
        requires nests { Nests self.now E.pre E.post S.pre S.post D.pre D.post }
        ensures { Gives option_of (by self.now spec.array_length tokens.old) result tokens.new }
    {
        if tokens.next_is(Punct::RightBracket) {
            tokens.skip();
            return Ok(None);
        }
        let length = self.inner_expr(tokens, levels::CONDITIONAL)?;
        tokens.take(Punct::RightBracket)?;
        Ok(Some(length))
    }

    /// Whether a suffix comes: `[` or `(`.
    fn suffix_comes(&self, tokens: &Cursor<'_>) -> bool
        ensures { result ≡ by self.now spec.suffix_comes tokens.now }
    {
        tokens.next_is(Punct::LeftBracket) || tokens.next_is(Punct::LeftParen)
    }

    /// Whether a suffix comes that `left` can have. One that is refused for its depth alone is marked.
    fn has_suffix(&self, tokens: &mut Cursor<'_>, left: &Declarator<Spot>) -> bool
        requires room { 0 < self.now.depth }
        ensures answer { result ≡ (by self.now spec.suffix_comes tokens.old && nat_lt (declarator_depth (view_declarator left.now)) self.now.depth) }
        ensures stays { tokens.new ≡ tokens.old }
    {
        if !self.suffix_comes(tokens) {
            return false;
        }
        let fits = declarator_fits(left, self.depth - 1);
        if !fits {
            tokens.mark();
        }
        fits
    }

    /// `left` with an array's brackets behind it (C17 6.7.6.2).
    fn array_of(
        &self,
        tokens: &mut Cursor<'_>,
        left: Boxed<Declarator<Spot>>,
        note: Spot,
    ) -> Result<Boxed<Declarator<Spot>>, Fault>
        requires room { 0 < self.now.depth }
        requires nests { Nests self.now E.pre E.post S.pre S.post D.pre D.post }
        ensures { Gives view_declarator (by self.now part.array_of (view_declarator left) note tokens.old) result tokens.new }
    {
        tokens.skip();
        let length = self.array_length(tokens)?;
        Ok(Boxed::new(self.alloc, Declarator::Array(note, left, length))?)
    }

    /// `left` with parameters behind it (C17 6.7.6.3).
    fn function_of(
        &self,
        tokens: &mut Cursor<'_>,
        left: Boxed<Declarator<Spot>>,
        note: Spot,
    ) -> Result<Boxed<Declarator<Spot>>, Fault>
        requires room { 0 < self.now.depth }
        requires nests { Nests self.now E.pre E.post S.pre S.post D.pre D.post }
        ensures { Gives view_declarator (by self.now part.function_of (view_declarator left) note tokens.old) result tokens.new }
    {
        tokens.skip();
        let parameters = self.parameters(tokens)?;
        Ok(Boxed::new(self.alloc, Declarator::Func(note, left, parameters))?)
    }

    /// What goes on behind a declarator: an array's brackets, or parameters.
    fn suffix(
        &self,
        tokens: &mut Cursor<'_>,
        left: Boxed<Declarator<Spot>>,
    ) -> Result<Boxed<Declarator<Spot>>, Fault>
        requires room { 0 < self.now.depth }
        requires nests { Nests self.now E.pre E.post S.pre S.post D.pre D.post }
        ensures { Gives view_declarator (by self.now spec.suffix (view_declarator left) tokens.old) result tokens.new }
    {
        let note = spot_or(left.get(), tokens.spot());
        if tokens.next_is(Punct::LeftBracket) {
            self.array_of(tokens, left, note)
        } else {
            self.function_of(tokens, left, note)
        }
    }

    /// What is written inside of parentheses.
    fn written(&self, tokens: &mut Cursor<'_>, mode: Mode) -> Result<Boxed<Declarator<Spot>>, Fault>
        requires room { 0 < self.now.depth }
        requires nests { Nests self.now E.pre E.post S.pre S.post D.pre D.post }
        ensures { Gives view_declarator (by self.now part.written (mode_of mode) tokens.old) result tokens.new }
    {
        let inside = self.inner_declarator(tokens, mode)?;
        if !is_written(inside.get()) {
            return Err(Fault::Refused);
        }
        Ok(inside)
    }

    /// A declarator in parentheses (C17 6.7.6p6).
    fn group(&self, tokens: &mut Cursor<'_>, mode: Mode) -> Result<Boxed<Declarator<Spot>>, Fault>
        requires room { 0 < self.now.depth }
        requires nests { Nests self.now E.pre E.post S.pre S.post D.pre D.post }
        ensures { Gives view_declarator (by self.now spec.group (mode_of mode) tokens.old) result tokens.new }
    {
        let first = tokens.spot();
        tokens.skip();
        let inside = self.written(tokens, mode)?;
        tokens.take(Punct::RightParen)?;
        let note = opening(inside.get(), first);
        Ok(Boxed::new(self.alloc, Declarator::Paren(note, inside))?)
    }

    /// Whether the parenthesis that comes begins parameters, where there may be no name (C17 6.7.6.3p11).
    fn begins_parameters(&self, tokens: &Cursor<'_>, mode: Mode) -> bool
        ensures { result ≡ by self.now spec.begins_parameters (mode_of mode) tokens.now }
    {
        match mode {
            Mode::Named => false,
            Mode::Abstract | Mode::Either => {
                let inside = tokens.behind();
                inside.next_is(Punct::RightParen) || inside.starts_spec(self.names)
            }
        }
    }

    /// Nothing in the place of a declarator, where there may be nothing.
    fn nothing(&self, tokens: &mut Cursor<'_>, mode: Mode) -> Result<Boxed<Declarator<Spot>>, Fault>
        ensures { Gives view_declarator (by self.now spec.nothing (mode_of mode) tokens.old) result tokens.new }
    {
        match mode {
            Mode::Named => Err(Fault::Refused),
            Mode::Abstract | Mode::Either => { Ok(Boxed::new(self.alloc, Declarator::Nameless)?) }
        }
    }

    /// Whether a name comes that the declarator may have.
    fn has_name(&self, tokens: &Cursor<'_>, mode: Mode) -> bool
        ensures { result ≡ (spec.takes_name (mode_of mode) && by self.now spec.is_id (next_ident tokens.now)) }
    {
        match mode {
            Mode::Abstract => false,
            Mode::Named | Mode::Either => match tokens.ident() {
                None => false,
                Some(name) => !self.names.has(name.as_str()),
            },
        }
    }

    /// A declarator without `*` and without suffixes: a name, parentheses, or nothing (C17 6.7.6, 6.7.7).
    fn direct(&self, tokens: &mut Cursor<'_>, mode: Mode) -> Result<Boxed<Declarator<Spot>>, Fault>
        requires room { 0 < self.now.depth }
        requires nests { Nests self.now E.pre E.post S.pre S.post D.pre D.post }
        ensures { Gives view_declarator (by self.now spec.direct (mode_of mode) tokens.old) result tokens.new }
    {
        if self.has_name(tokens, mode) {
            let note = tokens.spot();
            let name = identifier(self.alloc, tokens, self.names)?;
            return Ok(Boxed::new(self.alloc, Declarator::Name(note, name))?);
        }
        if tokens.next_is(Punct::LeftParen) && !self.begins_parameters(tokens, mode) {
            return self.group(tokens, mode);
        }
        self.nothing(tokens, mode)
    }

    /// Goes past each `const` that comes, and counts them (C17 6.7.6.1).
    fn consts(&self, tokens: &mut Cursor<'_>) -> u64
        ensures { by self.now spec.consts tokens.old ≡ Ok (result, tokens.new) }
    {
        let mut count = 0;
        for _round in 0..tokens.len() {
            if !tokens.next_is_keyword(Keyword::Const) {
                return count;
            }
            tokens.skip();
            count += 1;
        }
        count
    }

    /// `*` with each `const` behind it, and the declarator after them (C17 6.7.6.1).
    fn pointed(&self, tokens: &mut Cursor<'_>, mode: Mode) -> Result<Boxed<Declarator<Spot>>, Fault>
        requires room { 0 < self.now.depth }
        requires nests { Nests self.now E.pre E.post S.pre S.post D.pre D.post }
        ensures { Gives view_declarator (by self.now part.pointed (mode_of mode) tokens.old) result tokens.new }
    {
        let first = tokens.spot();
        tokens.skip();
        let count = self.consts(tokens);
        let inside = self.inner_declarator(tokens, mode)?;
        let note = opening(inside.get(), first);
        Ok(Boxed::new(self.alloc, Declarator::Pointer(note, count, inside))?)
    }

    /// Goes on behind `first` as long as a suffix comes and there is room for it.
    fn suffixes(
        &self,
        tokens: &mut Cursor<'_>,
        first: Boxed<Declarator<Spot>>,
    ) -> Result<Boxed<Declarator<Spot>>, Fault>
        requires room { 0 < self.now.depth }
        requires nests { Nests self.now E.pre E.post S.pre S.post D.pre D.post }
        ensures { Gives view_declarator (by self.now spec.suffixes self.now.depth (view_declarator first) tokens.old) result tokens.new }
    {
        let mut left = first;
        for _round in 0..self.depth {
            if !self.has_suffix(tokens, left.get()) {
                return Ok(left);
            }
            left = self.suffix(tokens, left)?;
        }
        // Each suffix made it deeper, so that there is no room for another.
        if self.suffix_comes(tokens) {
            tokens.mark();
        }
        Ok(left)
    }

    /// A declarator where there is room for one.
    fn some_declarator(
        &self,
        tokens: &mut Cursor<'_>,
        mode: Mode,
    ) -> Result<Boxed<Declarator<Spot>>, Fault>
        requires room { 0 < self.now.depth }
        requires nests { Nests self.now E.pre E.post S.pre S.post D.pre D.post }
        ensures { Gives view_declarator (by self.now part.some_declarator (mode_of mode) tokens.old) result tokens.new }
    {
        if tokens.next_is(Punct::Star) {
            return self.pointed(tokens, mode);
        }
        let first = self.direct(tokens, mode)?;
        self.suffixes(tokens, first)
    }

    /// Marks the next token if a declarator would begin with it where there is room for one.
    fn mark_declarator(&self, tokens: &mut Cursor<'_>, mode: Mode)
        ensures { tokens.new ≡ tokens.old }
    {
        let begins = tokens.next_is(Punct::Star) || tokens.next_is(Punct::LeftParen);
        let begins_nameless = mode != Mode::Named && tokens.next_is(Punct::LeftBracket);
        if begins || begins_nameless || self.has_name(tokens, mode) {
            tokens.mark();
        }
    }

    /// A declarator: with a name, without one, or either (C17 6.7.6, 6.7.7).
    pub fn declarator(
        &self,
        tokens: &mut Cursor<'_>,
        mode: Mode,
    ) -> Result<Boxed<Declarator<Spot>>, Fault>
        requires nests { Nests self.now E.pre E.post S.pre S.post D.pre D.post }
        ensures { Gives view_declarator (by self.now spec.declarator (mode_of mode) tokens.old) result tokens.new }
    {
        if self.depth == 0 {
            self.mark_declarator(tokens, mode);
            return self.nothing(tokens, mode);
        }
        self.some_declarator(tokens, mode)
    }
}
