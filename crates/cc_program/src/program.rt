// The program.
ghost use Rattle.std.specs.Prelude.{◌≡◌, length, slice_get};
ghost use Rattle.std.specs.Option.{option_copied};
ghost use Rattle.cc_arena.specs.Arenas.{node_of, parent_of, spot_of};
ghost use Rattle.cc_types.specs.Interning.{shape_of};
ghost use Rattle.cc_types.specs.Measures as measures;
ghost use Rattle.cc_types.specs.Shapes.{built, types_of};
ghost use Rattle.cc_program.specs.Programs as spec;

use crate::file::{FileEntry, file_with};
use crate::function::{FuncId, Function, FunctionKind};
use crate::variable::{VarId, Variable};
use cc_arena::{Arena, Node};
use cc_base::{CompId, FileId, List, Place, Spot, Text};
use cc_symbols::{Known, Life, Slots};
use cc_tree::StructId;
use cc_types::{ExprType, Measure, Member, TypeId, TypeTable};

/// What a name stands for in the program.
#[derive(Clone, Copy, Debug, PartialEq, Eq)]
pub enum Referent {
    Function(FuncId),
    Variable(VarId),
    /// An enumeration constant, by its value.
    Constant(i32),
}

/// The program that the files of a project make.
#[derive(Drop)]
pub struct Program {
    /// The nodes of all files.
    pub arena: Arena,
    /// What is known by number: types, declarations, what names name, the types of expressions. Its structs are those of the
    /// whole project.
    pub known: Known,
    /// What a declaration declares, by its number; none where that is neither numbered nor a constant.
    pub referents: Slots<Option<Referent>>,
    /// The functions that are defined or of the environment, by number.
    pub functions: List<Function>,
    /// The variables, by number.
    pub variables: List<Variable>,
    /// The names of the components, by number.
    pub components: List<Text>,
    /// The files, by number.
    pub files: List<FileEntry>,
    /// The entries, in the order of the project file.
    pub entries: List<FuncId>,
}

impl Program {
    /// The function of this number.
    pub fn function(&self, f: FuncId) -> Option<&Function>
        ensures { option_copied result ≡ slice_get self.now.functions f.0 }
    {
        self.functions.as_slice().get(f.0 as usize)
    }

    /// The variable of this number.
    pub fn variable(&self, v: VarId) -> Option<&Variable>
        ensures { option_copied result ≡ slice_get self.now.variables v.0 }
    {
        self.variables.as_slice().get(v.0 as usize)
    }

    /// The entries, in the order of the project file.
    pub fn entries(&self) -> &[FuncId]
        ensures { result.now ≡ self.now.entries }
    {
        self.entries.as_slice()
    }

    /// The nodes of all files.
    pub fn arena(&self) -> &Arena
        ensures { result.now ≡ self.now.arena }
    {
        &self.arena
    }

    /// The node of this number.
    pub fn node(&self, o: u32) -> Option<Node>
        ensures { result ≡ node_of (slice_get self.now.arena.nodes o) }
    {
        self.arena.node_at(o)
    }

    /// The node that a node is a part of; of a declaration or definition of a file its own.
    pub fn parent_of(&self, o: u32) -> Option<u32>
        ensures { result ≡ parent_of (slice_get self.now.arena.nodes o) }
    {
        self.arena.parent_at(o)
    }

    /// Where a node stands in its file.
    pub fn spot_of(&self, o: u32) -> Option<Spot>
        ensures { result ≡ spot_of (slice_get self.now.arena.nodes o) }
    {
        self.arena.spot_at(o)
    }

    /// The type of an expression.
    pub fn type_of(&self, o: u32) -> Option<ExprType>
        ensures { result ≡ spec.or_none (slice_get self.now.known.found.types o) }
    {
        self.known.found.types.get(o).unwrap_or(None)
    }

    /// The type of a type name, or of the name in a declarator.
    pub fn kind_of(&self, o: u32) -> Option<TypeId>
        ensures { result ≡ spec.or_none (slice_get self.now.known.symbols.kinds o) }
    {
        self.known.symbols.kinds.get(o).unwrap_or(None)
    }

    // What a declaration declares.
    fn referent(&self, declaration: u32) -> Option<Referent>
        ensures { result ≡ spec.or_none (slice_get self.now.referents declaration) }
    {
        self.referents.get(declaration).unwrap_or(None)
    }

    /// What the name at a node names: a name in an expression, the name in a declarator, an enumeration constant where it
    /// is declared.
    pub fn names(&self, o: u32) -> Option<Referent>
        ensures { result ≡ spec.names self.now o }
    {
        match self.known.symbols.names.get(o) {
            Some(Some(declaration)) => self.referent(declaration),
            _ => None,
        }
    }

    /// The member that a member access selects, by its place in the struct.
    pub fn member_of(&self, o: u32) -> Option<u32>
        ensures { result ≡ spec.or_none (slice_get self.now.known.found.members o) }
    {
        self.known.found.members.get(o).unwrap_or(None)
    }

    /// The table of types.
    pub fn types(&self) -> &TypeTable
        ensures { result.now ≡ self.now.known.symbols.types }
    {
        &self.known.symbols.types
    }

    /// The members of a struct, in order; none where it is complete in no file.
    pub fn members(&self, s: StructId) -> &[Member]
        ensures { result.now ≡ (measures.entry_of self.now.known.symbols.structs s).members }
    {
        self.known.symbols.structs.members(s)
    }

    /// How much room an object of a type takes, where the structs are those of the project.
    pub fn measure_of(&self, ty: TypeId) -> Measure
        ensures { result ≡ spec.measure_of self.now ty }
    {
        let types = &self.known.symbols.types;
        self.known.symbols.structs.measure(types, types.shape(ty))
    }

    /// The file in which a node stands.
    pub fn file_of(&self, o: u32) -> FileId
        ensures { result ≡ spec.file_of self.now o }
    {
        file_with(self.files.as_slice(), o)
    }

    /// The place of a node.
    pub fn place(&self, o: u32) -> Place
        ensures { result ≡ spec.place self.now o }
    {
        let spot = self.spot_of(o).unwrap_or(Spot { line: 0, column: 0 });
        Place::new(self.file_of(o), spot)
    }

    // The component of a file.
    fn component_with(&self, f: FileId) -> CompId
        ensures { result ≡ spec.component_with self.now f }
    {
        match self.files.as_slice().get(f.0 as usize) {
            Some(file) => file.component,
            None => CompId(0),
        }
    }

    /// The component in whose files a node stands.
    pub fn component_of(&self, o: u32) -> CompId
        ensures { result ≡ spec.component_with self.now (spec.file_of self.now o) }
    {
        self.component_with(self.file_of(o))
    }

    /// The name of a file; empty past the last one.
    pub fn file_name(&self, f: FileId) -> &str
        ensures { result.now ≡ spec.file_name self.now f }
    {
        match self.files.as_slice().get(f.0 as usize) {
            Some(file) => file.name.as_str(),
            None => "",
        }
    }

    /// The name of a component; empty past the last one.
    pub fn component_name(&self, c: CompId) -> &str
        ensures { result.now ≡ spec.component_name self.now c }
    {
        match self.components.as_slice().get(c.0 as usize) {
            Some(name) => name.as_str(),
            None => "",
        }
    }

    /// How many files there are.
    pub fn files(&self) -> u32
        ensures { result ≡ spec.number_of (length self.now.files) }
    {
        number_of(self.files.len())
    }

    /// How many components there are.
    pub fn components(&self) -> u32
        ensures { result ≡ spec.number_of (length self.now.components) }
    {
        number_of(self.components.len())
    }

    /// How many functions there are.
    pub fn functions(&self) -> u32
        ensures { result ≡ spec.number_of (length self.now.functions) }
    {
        number_of(self.functions.len())
    }

    /// How many variables there are.
    pub fn variables(&self) -> u32
        ensures { result ≡ spec.number_of (length self.now.variables) }
    {
        number_of(self.variables.len())
    }

    /// How many nodes there are, which are the numbers below it.
    pub fn occurrences(&self) -> u32
        ensures { result ≡ spec.number_of (length self.now.arena.nodes) }
    {
        number_of(self.arena.nodes.len())
    }

    /// How many functions have a body.
    pub fn defined_functions(&self) -> u32
        ensures { result ≡ spec.defined_in self.now.functions }
    {
        let mut count: u32 = 0;
        for function in self.functions.as_slice() {
            count = counted(count, function.kind == FunctionKind::Defined);
        }
        count
    }

    /// How many variables are objects of the whole run.
    pub fn static_objects(&self) -> u32
        ensures { result ≡ spec.static_in self.now.variables }
    {
        let mut count: u32 = 0;
        for variable in self.variables.as_slice() {
            count = counted(count, variable.life == Life::Static);
        }
        count
    }
}

// A count as a number of 32 bits: 2^32 - 1 stands for that many or more.
fn number_of(count: u64) -> u32
    ensures { result ≡ spec.number_of count }
{
    if count < u32::MAX as u64 {
        count as u32
    } else {
        u32::MAX
    }
}

// A count with one more, where there is one: 2^32 - 1 stands for that many or more.
fn counted(count: u32, is_one: bool) -> u32
    ensures { result ≡ spec.counted count is_one }
{
    if is_one && count < u32::MAX {
        count + 1
    } else {
        count
    }
}
