// Tags (C17 6.7.2.3).
ghost use Rattle.std.specs.Prelude.{◌≡◌, IfOk, OnOk, Some};
ghost use Rattle.cc_declare.specs.Tagging as spec;

use crate::checker::Checker;
use cc_base::{Memory, Text};
use cc_symbols::rule;
use cc_tree::StructId;
use cc_tree_notes::Counted;
use std::alloc::Global;

/// What a tag is of.
#[derive(Clone, Copy, Debug, PartialEq, Eq)]
pub enum TagForm {
    Struct(StructId),
    Enum,
}

/// A tag of the file.
#[derive(Clone, Copy, Debug, PartialEq, Eq)]
pub struct Tag {
    pub form: TagForm,
    /// Whether it got members or enumeration constants.
    pub has_body: bool,
}

impl<'a> Checker<'a> {
    // One tag more.
    fn add_tag(&mut self, name: &'a str, tag: Tag) -> Result<(), Memory>
        ensures { OnOk result (self.new ≡ spec.tag_added self.old name.now tag) }
    {
        let number = self.tagged.count()?;
        self.tagged.push(tag)?;
        self.tags.declare(name, number)
    }

    // The tag of this name in the file so far, with its number.
    fn tag_named(&self, name: &str) -> Option<(u32, Tag)>
        ensures { result ≡ spec.tag_named self.now name.now }
    {
        match self.tags.find(name) {
            Some(number) => match self.tagged.get(number) {
                Some(tag) => Some((number, tag)),
                None => None,
            },
            None => None,
        }
    }

    // A tag stands again with its own word. It may get a body once (C18).
    fn tag_again(&mut self, note: Counted, number: u32, tag: Tag, has_body: bool)
        ensures { self.new ≡ spec.tag_again self.old note number tag has_body }
    {
        self.offend_if(tag.has_body && has_body, note, rule::NEW_NAME);
        let again = Tag {
            form: tag.form,
            has_body: tag.has_body || has_body,
        };
        self.tagged.put(number, again);
    }

    // A struct's tag stands for the first time in the file.
    fn first_struct(
        &mut self,
        alloc: Global,
        note: Counted,
        name: &'a str,
        has_body: bool,
    ) -> Result<Option<StructId>, Memory>
        ensures { IfOk result (λ id. (self.new, id) ≡ spec.first_struct self.old note name.now has_body) }
    {
        let id = self.symbols.struct_tagged(alloc, name, note.number)?;
        let tag = Tag {
            form: TagForm::Struct(id),
            has_body,
        };
        self.add_tag(name, tag)?;
        Ok(Some(id))
    }

    // The struct of this tag. A tag of an enum has none (C18).
    fn named_struct(
        &mut self,
        alloc: Global,
        note: Counted,
        name: &'a str,
        has_body: bool,
    ) -> Result<Option<StructId>, Memory>
        ensures { IfOk result (λ id. (self.new, id) ≡ spec.named_struct self.old note name.now has_body) }
    {
        match self.tag_named(name) {
            None => self.first_struct(alloc, note, name, has_body),
            Some((number, tag)) => match tag.form {
                TagForm::Struct(id) => {
                    self.tag_again(note, number, tag, has_body);
                    Ok(Some(id))
                }
                TagForm::Enum => {
                    self.offend(note, rule::NEW_NAME);
                    Ok(None)
                }
            },
        }
    }

    /// The struct of a specifier, which may have a tag, and has members or not.
    pub fn struct_of(
        &mut self,
        alloc: Global,
        note: Counted,
        tag: &'a Option<Text>,
        has_body: bool,
    ) -> Result<Option<StructId>, Memory>
        ensures { IfOk result (λ id. (self.new, id) ≡ spec.struct_of self.old note tag.now has_body) }
    {
        match tag {
            Some(name) => self.named_struct(alloc, note, name.as_str(), has_body),
            None => {
                let id = self.symbols.struct_unnamed(alloc, note.number)?;
                Ok(Some(id))
            }
        }
    }

    // A tag stands again in an enum. A tag of a struct may not (C18).
    fn enum_again(&mut self, note: Counted, number: u32, tag: Tag, has_body: bool)
        ensures { self.new ≡ spec.enum_again self.old note number tag has_body tag.form }
    {
        match tag.form {
            TagForm::Enum => self.tag_again(note, number, tag, has_body),
            TagForm::Struct(_) => self.offend(note, rule::NEW_NAME),
        }
    }

    // The tag of an enum.
    fn named_enum(&mut self, note: Counted, name: &'a str, has_body: bool) -> Result<(), Memory>
        ensures { OnOk result (self.new ≡ spec.named_enum self.old note name.now has_body) }
    {
        match self.tag_named(name) {
            None => {
                let tag = Tag {
                    form: TagForm::Enum,
                    has_body,
                };
                self.add_tag(name, tag)
            }
            Some((number, tag)) => {
                self.enum_again(note, number, tag, has_body);
                Ok(())
            }
        }
    }

    /// An enum's specifier, which may have a tag, and has constants or not.
    pub fn enum_of(
        &mut self,
        note: Counted,
        tag: &'a Option<Text>,
        has_body: bool,
    ) -> Result<(), Memory>
        ensures { OnOk result (self.new ≡ spec.enum_of self.old note tag.now has_body) }
    {
        match tag {
            Some(name) => self.named_enum(note, name.as_str(), has_body),
            None => Ok(()),
        }
    }
}
