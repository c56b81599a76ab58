// Why the call gives up before it has a text.
ghost use Rattle.std.specs.Prelude.{◌≡◌, IfOk, string_bytes};
ghost use Rattle.cc_top.specs.Refusal as spec;

use cc_base::{Memory, Spot, Text};
use cc_front::Fault;
use std::alloc::{AllocError, Global};

/// Something is wrong at a place of a C file.
#[derive(Debug, Drop)]
pub struct At {
    pub file: Text,
    pub spot: Spot,
    pub fault: Fault,
}

/// What should not come: that it can't is not proved.
#[derive(Clone, Copy, Debug)]
pub enum Internal {
    /// A number that names nothing came back from a step.
    Number,
    /// The machine that runs the tests was lost.
    Machine,
    /// The runs of the tests can't be watched.
    Watched,
    /// A file of a generated project can't be read.
    Generated,
}

#[derive(Debug, Drop)]
pub enum Refusal {
    /// The words are no command.
    Usage,
    /// The read of this file failed.
    ReadFault(Text),
    /// There is no such file.
    Missing(Text),
    /// The file has more than 1,048,576 bytes.
    TooLong(Text),
    /// The project file, or the file of devices, is no TOML document.
    NotToml(Text),
    /// The project file breaks rule J`rule` at this key.
    Shape {
        name: Text,
        key: Text,
        rule: u8,
    },
    /// The file of devices breaks rule V`rule` at this key.
    DeviceShape {
        name: Text,
        key: Text,
        rule: u8,
    },
    /// A C file is refused at a place.
    At(At),
    /// The entry of this name breaks rule K`rule`.
    Entry {
        name: Text,
        rule: u8,
    },
    /// The function of the environment of this name breaks rule K`rule`.
    Environment {
        name: Text,
        rule: u8,
    },
    /// A call of this test, counted from 0, breaks rule B`rule`.
    Test {
        test: Text,
        call: u32,
        rule: u8,
    },
    /// The trees of the files have 2^30 nodes or more.
    TooManyNodes,
    /// The program has more control points than there may be: this many.
    TooManyPoints(u64),
    /// The program has more points-to facts than there may be.
    TooManyFacts,
    /// The table would have more rows than there may be.
    TooManyRows,
    /// The justification of this number, counted from 0, has the line of no row.
    NoSuchRow {
        name: Text,
        index: u32,
    },
    /// A test of this name exercises the row of this number, counted from 0, that is justified.
    Covered {
        name: Text,
        index: u32,
        row: u32,
        test: Text,
    },
    /// What should not come.
    Internal(Internal),
    /// Memory was wanting.
    Memory,
}

impl From<AllocError> for Refusal {
    ghost use Rattle.cc_top.specs.declared.refusal.Refusal.TheVariants.{Memory};

    ghost from_gives = { λ _ e. e ≡ Memory };

    fn from(_: AllocError) -> Refusal {
        Refusal::Memory
    }
}

impl From<Memory> for Refusal {
    ghost use Rattle.cc_top.specs.declared.refusal.Refusal.TheVariants.{Memory};

    ghost from_gives = { λ _ e. e ≡ Memory };

    fn from(_: Memory) -> Refusal {
        Refusal::Memory
    }
}

// What is wrong, without its place.
fn fault_text(alloc: Global, fault: Fault) -> Result<String, AllocError>
    ensures { IfOk result (λ text. string_bytes text ≡ spec.fault_text fault) }
{
    match fault {
        Fault::Lexical(rule) => format!(in alloc; "lexical L{rule}"),
        Fault::Directive(rule) => format!(in alloc; "directive M{rule}"),
        Fault::Syntax => String::from_str(alloc, "syntax"),
        Fault::TooDeep => String::from_str(alloc, "too deep"),
        Fault::Offence(rule) => format!(in alloc; "offence C{rule}"),
        Fault::Link(rule) => format!(in alloc; "link K{rule}"),
    }
}

impl At {
    // The line that names the place and what is wrong.
    fn line(&self, alloc: Global) -> Result<String, AllocError>
        ensures { IfOk result (λ line. string_bytes line ≡ spec.at_line self.now) }
    {
        let file = &self.file;
        let line = self.spot.line;
        let column = self.spot.column;
        let fault = fault_text(alloc, self.fault)?;
        format!(in alloc; "{file}:{line}:{column}: {fault}\n")
    }
}

// The line of a call of a test, which it counts from 1.
fn test_line(alloc: Global, test: &Text, call: u32, rule: u8) -> Result<String, AllocError>
    ensures { IfOk result (λ line. string_bytes line ≡ spec.test_line test.now call rule) }
{
    let call = call as u64 + 1;
    format!(in alloc; "test {test} call {call}: B{rule}\n")
}

// The line of a justification whose line is that of no row.
fn no_row_line(alloc: Global, name: &Text, index: u32) -> Result<String, AllocError>
    ensures { IfOk result (λ line. string_bytes line ≡ spec.no_row_line name.now index) }
{
    format!(in alloc; "{name}: Q1 justified[{index}]\n")
}

// The line of a justified row, which it counts from 1.
fn covered_line(
    alloc: Global,
    name: &Text,
    index: u32,
    row: u32,
    test: &Text,
) -> Result<String, AllocError>
    ensures { IfOk result (λ line. string_bytes line ≡ spec.covered_line name.now index row test.now) }
{
    let row = row as u64 + 1;
    format!(in alloc; "{name}: Q2 justified[{index}] row {row} {test}\n")
}

impl Internal {
    // What it is.
    fn text(self) -> &'static str
        ensures { result.now ≡ spec.internal_text self }
    {
        match self {
            Internal::Number => "a number without a name",
            Internal::Machine => "the machine is lost",
            Internal::Watched => "runs can't be watched",
            Internal::Generated => "a generated file can't be read",
        }
    }

    // The line that says so.
    fn line(self, alloc: Global) -> Result<String, AllocError>
        ensures { IfOk result (λ line. string_bytes line ≡ spec.internal_line self) }
    {
        let text = self.text();
        format!(in alloc; "internal: {text}\n")
    }
}

impl Refusal {
    ghost use Rattle.cc_top.specs.Refusal.{line_of, status_of};

    /// The line that stands on err.
    pub fn line(&self, alloc: Global) -> Result<String, AllocError>
        ensures { IfOk result (λ line. string_bytes line ≡ line_of self.now) }
    {
        match self {
            Refusal::Usage => String::from_str(
                alloc,
                "usage: coupling check|list|score|tests|pairs P | gen N | devices P D | reduce P | order P\n",
            ),
            Refusal::ReadFault(name) => format!(in alloc; "{name}: read fault\n"),
            Refusal::Missing(name) => format!(in alloc; "{name}: missing\n"),
            Refusal::TooLong(name) => format!(in alloc; "{name}: too long\n"),
            Refusal::NotToml(name) => format!(in alloc; "{name}: not TOML\n"),
            Refusal::Shape { name, key, rule } => format!(in alloc; "{name}: J{rule} {key}\n"),
            Refusal::DeviceShape { name, key, rule } => {
                format!(in alloc; "{name}: V{rule} {key}\n")
            }
            Refusal::At(at) => at.line(alloc),
            Refusal::Entry { name, rule } => format!(in alloc; "entry {name}: link K{rule}\n"),
            Refusal::Environment { name, rule } => {
                format!(in alloc; "environment {name}: link K{rule}\n")
            }
            Refusal::Test { test, call, rule } => test_line(alloc, test, *call, *rule),
            Refusal::TooManyNodes => String::from_str(alloc, "too many nodes\n"),
            Refusal::TooManyPoints(count) => format!(in alloc;
                "too many control points: {count}\n"
            ),
            Refusal::TooManyFacts => String::from_str(alloc, "too many facts\n"),
            Refusal::TooManyRows => String::from_str(alloc, "too many rows\n"),
            Refusal::NoSuchRow { name, index } => no_row_line(alloc, name, *index),
            Refusal::Covered {
                name,
                index,
                row,
                test,
            } => covered_line(alloc, name, *index, *row, test),
            Refusal::Internal(what) => what.line(alloc),
            Refusal::Memory => String::from_str(alloc, "out of memory\n"),
        }
    }

    /// The status that goes with it.
    pub fn status(&self) -> u8
        ensures { result ≡ status_of self.now }
    {
        match self {
            Refusal::Usage => 2,
            Refusal::ReadFault(_) => 4,
            Refusal::Memory => 5,
            _ => 3,
        }
    }
}
