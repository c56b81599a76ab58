// Why files make no program with tests.
use cc_base::{Memory, Spot};
use cc_link::Names;
use cc_prep::PrepFault;

/// What is wrong at a place of a C file.
#[derive(Clone, Copy, Debug, PartialEq, Eq)]
pub enum Fault {
    /// The bytes have no cut into tokens: rule L`0` (docs/tokens.md).
    Lexical(u8),
    /// A directive line can't be carried out: rule M`0` (docs/macros.md).
    Directive(u8),
    /// No file of the grammar goes on so (docs/grammar.md).
    Syntax,
    /// The tree would be deeper than it may be.
    TooDeep,
    /// Rule C`0` is broken (docs/rules.md).
    Offence(u8),
    /// Rule K`0` is broken.
    Link(u8),
}

/// Why files make no program with tests.
#[derive(Debug, Drop)]
pub enum FrontFault {
    /// A file has no tokens once its directive lines are carried out.
    Expansion(PrepFault),
    /// Something is wrong at a place of a file, which is counted from 0 in the order of the project.
    At { file: u32, spot: Spot, fault: Fault },
    /// An entry or a function of the environment, counted from 0 in its list of the project, breaks rule K`rule`.
    Name { list: Names, index: u32, rule: u8 },
    /// A call of a test breaks rule B`rule`. Tests and calls count from 0.
    Test { test: u32, call: u32, rule: u8 },
    /// The trees of the files have 2^30 nodes or more.
    TooManyNodes,
    /// Memory was wanting. No clause says when.
    Memory,
}

impl From<Memory> for FrontFault {
    ghost use Rattle.std.specs.Prelude.{◌≡◌};
    ghost use Rattle.cc_front.specs.declared.fault.FrontFault.TheVariants.{Memory};

    ghost from_gives = { λ _ fault. fault ≡ Memory };

    fn from(_: Memory) -> FrontFault {
        FrontFault::Memory
    }
}

/// Why a file is refused, whichever it is.
#[derive(Debug, Drop)]
pub(crate) enum FileFault {
    Expansion(PrepFault),
    At { spot: Spot, fault: Fault },
    TooManyNodes,
    Memory,
}

impl FileFault {
    ghost use Rattle.std.specs.Prelude.{◌≡◌};
    ghost use Rattle.cc_front.specs.Faults as spec;

    /// The fault of the file of this number.
    pub(crate) fn in_file(self, file: u32) -> FrontFault
        ensures { result ≡ spec.in_file self file }
    {
        match self {
            FileFault::Expansion(fault) => FrontFault::Expansion(fault),
            FileFault::At { spot, fault } => FrontFault::At { file, spot, fault },
            FileFault::TooManyNodes => FrontFault::TooManyNodes,
            FileFault::Memory => FrontFault::Memory,
        }
    }
}
