// What is known of declarations.
ghost use Rattle.std.specs.Prelude.{◌≡◌, OnOk, IfOk};
ghost use Rattle.cc_symbols.specs.Symbols as spec;

use crate::declared::Declared;
use crate::slots::Slots;
use cc_arith::IntKind;
use cc_base::{List, Memory, Text};
use cc_tree::StructId;
use cc_types::{Depths, Member, MemberLists, Shape, Structs, TextNumbers, TypeId, TypeTable};
use std::alloc::Global;

/// Plain `char`, the first type of the table: the elements of string literals.
pub const CHAR: TypeId = TypeId(0);

/// What is known of declarations: of all files so far, but for the members of structs and the depths of types, which are
/// those of the file that is being checked.
#[derive(Drop)]
pub struct Symbols {
    /// The types of all files. It begins with `char`.
    pub types: TypeTable,
    pub structs: Structs,
    pub depths: Depths,
    /// The tags of structs, and by their numbers the structs. Tags mean the same in all files.
    pub tags: TextNumbers,
    pub tagged: Slots<Option<StructId>>,
    /// The lists of members of complete structs without a tag, and by their numbers the first struct of each.
    pub lists: MemberLists,
    pub unnamed: Slots<Option<StructId>>,
    /// The declarations, by number.
    pub declared: Slots<Declared>,
    /// Their names, by the same numbers.
    pub texts: List<Text>,
    /// By the number of a node, the declaration that it names: of an expression that is a name, of the name in a
    /// declarator, and of an enumeration constant where it is declared.
    pub names: Slots<Option<u32>>,
    /// By the number of a node, the type of a type name, and of the name in a declarator.
    pub kinds: Slots<Option<TypeId>>,
}

impl Symbols {
    /// Nothing is known but the type `char`.
    pub fn new(alloc: Global) -> Result<Symbols, Memory>
        ensures { IfOk result (λ symbols. symbols ≡ spec.no_symbols) }
    {
        let mut types = TypeTable::new(alloc);
        types.intern(Shape::Integer(false, IntKind::Char))?;
        Ok(Symbols {
            types,
            structs: Structs::new(alloc),
            depths: Depths::new(alloc),
            tags: TextNumbers::new(alloc),
            tagged: Slots::new(alloc),
            lists: MemberLists::new(alloc),
            unnamed: Slots::new(alloc),
            declared: Slots::new(alloc),
            texts: List::new(alloc),
            names: Slots::new(alloc),
            kinds: Slots::new(alloc),
        })
    }

    /// Places for the nodes below this number.
    pub fn grow(&mut self, nodes: u32) -> Result<(), Memory>
        ensures { OnOk result (self.new ≡ spec.grown self.old nodes) }
    {
        self.names.grow(nodes, None)?;
        self.kinds.grow(nodes, None)
    }

    /// The number of one declaration more, of this name. What `names` has is for the caller to put.
    pub fn declare(&mut self, alloc: Global, name: &str, what: Declared) -> Result<u32, Memory>
        ensures { IfOk result (λ n. (self.new, n) ≡ spec.declared self.old name.now what) }
    {
        let number = self.declared.count()?;
        let text = Text::new(String::from_str(alloc, name)?);
        self.texts.push(text)?;
        self.declared.push(what)?;
        Ok(number)
    }

    // One struct more, by the number of its tag.
    fn add_tagged(&mut self, alloc: Global, tag: u32, token: u32) -> Result<StructId, Memory>
        ensures { IfOk result (λ id. (self.new, id) ≡ spec.tagged_added self.old tag token) }
    {
        let id = self.structs.add(alloc, true, token)?;
        self.tagged.put_far(tag, Some(id), None)?;
        Ok(id)
    }

    /// The struct of this tag in the project. It is added at the first sight of the tag, with the number of the node of
    /// its first token there.
    pub fn struct_tagged(
        &mut self,
        alloc: Global,
        tag: &str,
        token: u32,
    ) -> Result<StructId, Memory>
        ensures { IfOk result (λ id. (self.new, id) ≡ spec.struct_tagged self.old tag.now token) }
    {
        let tag = self.tags.number(alloc, tag)?;
        match self.tagged.get(tag) {
            Some(Some(id)) => Ok(id),
            _ => self.add_tagged(alloc, tag, token),
        }
    }

    /// One struct more, which has no tag, by the number of the node of its first token.
    pub fn struct_unnamed(&mut self, alloc: Global, token: u32) -> Result<StructId, Memory>
        ensures { IfOk result (λ id. (self.new, id) ≡ spec.struct_unnamed self.old token) }
    {
        self.structs.add(alloc, false, token)
    }

    // Takes down the first struct of a list of members, by the list's number.
    fn remember(&mut self, list: u32, id: StructId) -> Result<StructId, Memory>
        ensures { IfOk result (λ first. (self.new, first) ≡ spec.remembered self.old list id) }
    {
        self.unnamed.put_far(list, Some(id), None)?;
        Ok(id)
    }

    /// The struct that a struct without a tag is, once its members are read: the first one of the project that has no tag
    /// and these members, by name and type in this order (this one, where there was none). The caller then completes that.
    pub fn same_unnamed(
        &mut self,
        alloc: Global,
        id: StructId,
        members: &[Member],
    ) -> Result<StructId, Memory>
        ensures { IfOk result (λ first. (self.new, first)
            ≡ spec.same_unnamed self.old id members.now) }
    {
        let list = self.lists.number(alloc, members)?;
        match self.unnamed.get(list) {
            Some(Some(first)) => Ok(first),
            _ => self.remember(list, id),
        }
    }

    /// Begins another file: no struct has its members, and no depth is listed.
    pub fn renew_for_file(&mut self, alloc: Global) -> Result<(), Memory>
        ensures { OnOk result (self.new ≡ spec.renewed self.old) }
    {
        self.structs = self.structs.renewed(alloc)?;
        self.depths = Depths::new(alloc);
        Ok(())
    }
}
