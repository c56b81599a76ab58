// What a project file says.
use cc_base::{CompId, List, Text};
use std::marker::Model;

/// Texts, in the order of the project file.
pub type TextList = List<Text>;

/// Files, in the order of the project file.
pub type ProjectFileList = List<ProjectFile>;

/// Tests, in the order of the project file.
pub type RawTestList = List<RawTest>;

/// Justified rows, in the order of the project file.
pub type RawJustifiedList = List<RawJustified>;

/// The calls of a test, in their order.
pub type RawCallList = List<RawCall>;

/// Arguments or answers. They have 64 bits, as the integers of TOML.
pub type NumberList = List<i64>;

/// A file of the project, and the component that it is a part of.
#[derive(Debug, Drop)]
pub struct ProjectFile {
    /// Its name, as the project file has it.
    pub name: Text,
    /// The component.
    pub component: CompId,
}

/// A call of a test, which is not yet tied to a function of the program.
#[derive(Debug, Drop)]
pub struct RawCall {
    /// What the call names: any text.
    pub entry: Text,
    /// The arguments.
    pub args: NumberList,
}

/// A test whose calls are not yet tied to functions of the program.
#[derive(Debug, Drop)]
pub struct RawTest {
    /// Its name.
    pub name: Text,
    /// Its calls.
    pub calls: RawCallList,
    /// What the calls of the environment's functions are answered with.
    pub answers: NumberList,
    /// The most turns that it may take.
    pub turns: u32,
    /// The requirements that it serves.
    pub requirements: TextList,
}

/// A row that the project justifies, which is not yet tied to a row of the listing.
#[derive(Debug, Drop)]
pub struct RawJustified {
    /// The row's line in the table, after its number and a comma: any text.
    pub line: Text,
    /// Why no test exercises the row.
    pub reason: Text,
}

/// What a project file says. It keeps the limits and the kinds of its texts: 1 to 64 components and at most 64 files, 1
/// to 256 entries, at most 256 functions of the environment and 1,000 tests; a test has 1 to 10,000,000 turns and at most
/// 10,000 calls of 32 arguments, 100,000 answers and 100 requirements. No component, file, entry, environment function
/// or test is named twice (J2 to J6 and J8 to J13). The files stand in the order of their components. The format is 1 or
/// 2; in format 1 no row is justified, and in format 2 at most 1,000, none twice, each with a reason (J1 and J15 to J17).
#[derive(Debug, Drop)]
pub struct Project {
    /// The format: 1 or 2.
    pub format: u32,
    /// The names of the components, which number them from 0.
    pub components: TextList,
    /// The files of all components, those of component 0 first.
    pub files: ProjectFileList,
    /// The functions that tests may call.
    pub entries: TextList,
    /// The functions that are answered for, since no file has their bodies.
    pub environment: TextList,
    /// The tests.
    pub tests: RawTestList,
    /// The justified rows; none in format 1.
    pub justified: RawJustifiedList,
}

impl Model for Project {
    ghost use Rattle.cc_project.specs.Project.{Project as Content};

    ghost Value = { Content };

    ghost use Rattle.cc_project.specs.WellMade.{IsWellMade};

    ghost view = { λ p. record { format = p.format; components = p.components; files = p.files; entries = p.entries; environment = p.environment; tests = p.tests; justified = p.justified } };

    ghost invariant = { λ p. IsWellMade (record { format = p.format; components = p.components; files = p.files; entries = p.entries; environment = p.environment; tests = p.tests; justified = p.justified }) };
}
