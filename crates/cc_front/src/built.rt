// The program of a project and its tests.
ghost use Rattle.std.specs.Prelude.{◌≡◌, ◌≤◌, All, IfErr, IfOk, IfSome, length};
ghost use Rattle.cc_prep.specs.Faults.{NoneFalls, counts_of};
ghost use Rattle.cc_front.specs.Faults.{IsCaused, IsOther, IsToldIn};
ghost use Rattle.cc_tests.specs.Bound.{AreBound};

use crate::fault::{Fault, FrontFault};
use crate::files::check_files;
use cc_arena::Arena;
use cc_base::{Bytes, List, Spot};
use cc_io::Shelf;
use cc_link::{LinkFault, link};
use cc_meaning::TestList;
use cc_program::Program;
use cc_project::Project;
use cc_tests::{TestFault, bind_tests};
use std::alloc::Global;

/// The program of a project, and its tests.
#[derive(Drop)]
pub struct Built {
    pub program: Program,
    /// Each call names an entry of the program, and its arguments suit.
    pub tests: TestList,
}

impl Built {
    /// How many functions have a body.
    pub fn defined_functions(&self) -> u32 {
        self.program.defined_functions()
    }

    /// How many defined objects live as long as the run, those of blocks included, string literals left out.
    pub fn static_objects(&self) -> u32 {
        self.program.static_objects()
    }
}

// Why the files make no program.
fn unlinked(fault: LinkFault) -> FrontFault
    ensures { IsOther result }
{
    match fault {
        LinkFault::Offence { place, rule } => FrontFault::At {
            file: place.file.0,
            spot: Spot {
                line: place.line,
                column: place.column,
            },
            fault: Fault::Link(rule),
        },
        LinkFault::Name { list, index, rule } => FrontFault::Name { list, index, rule },
        LinkFault::Memory => FrontFault::Memory,
    }
}

// Why the tests don't suit the program.
fn unbound(fault: TestFault) -> FrontFault
    ensures { IsOther result }
{
    match fault {
        TestFault::Shape { test, call, rule } => FrontFault::Test { test, call, rule },
        TestFault::Memory => FrontFault::Memory,
    }
}

// The program with the project's tests.
fn with_tests(alloc: Global, project: &Project, program: Program) -> Result<Built, FrontFault>
    ensures bound { IfOk result (λ built. AreBound built.program project.now.tests built.tests) }
    ensures other { IfErr result IsOther }
{
    match bind_tests(alloc, project, &program) {
        Ok(tests) => Ok(Built { program, tests }),
        Err(fault) => Err(unbound(fault)),
    }
}

/// The program that the files of a project make, given by their bytes in the order of the project, and the project's tests.
///
/// # Errors
///
/// The first step that is refused: file by file its tokens (L1 to L9, M1 to M7, files that it includes), its words (C1 to
/// C14), its grammar (`Syntax`, `TooDeep`), its rules (C15 to C52); then the whole program (K1 to K10), then the tests (B1 to
/// B3). A fault of syntax at a file's end stands one past its last byte. `Memory` may come at any step.
pub fn front<S: Shelf>(
    alloc: Global,
    shelf: &mut S,
    project: &Project,
    files: &List<Bytes>,
) -> Result<Built, FrontFault>
    requires few { length files.now ≤ 64 }
    requires small { All (λ bytes. length bytes ≤ 1048576) files.now }
    ensures keeps { S.files shelf.new ≡ S.files shelf.old }
    ensures none_falls { NoneFalls (counts_of (S.faults shelf.old) (S.misses shelf.old) (S.longs shelf.old))
        (counts_of (S.faults shelf.new) (S.misses shelf.new) (S.longs shelf.new)) }
    ensures caused { IfErr result (IsCaused (counts_of (S.faults shelf.old) (S.misses shelf.old) (S.longs shelf.old))
        (counts_of (S.faults shelf.new) (S.misses shelf.new) (S.longs shelf.new))) }
    ensures told { IfSome (S.files shelf.old) (λ held. IfErr result (IsToldIn held files.now)) }
    ensures bound { IfOk result (λ built. AreBound built.program project.now.tests built.tests) }
{
    let mut arena = Arena::new(alloc);
    let checked = check_files(alloc, shelf, project, files, &mut arena)?;
    match link(alloc, checked.known, arena, &checked.units, project) {
        Ok(program) => with_tests(alloc, project, program),
        Err(fault) => Err(unlinked(fault)),
    }
}
