// Why tests can't be tied to a program.
use cc_base::Memory;

/// Why the tests of a project can't be tied to its program.
#[derive(Clone, Copy, Debug, PartialEq, Eq)]
pub enum TestFault {
    /// This call breaks rule B`rule`, and no call before it breaks a rule. Tests and calls count from 0.
    Shape { test: u32, call: u32, rule: u8 },
    /// Memory was wanting. No clause says when.
    Memory,
}

impl From<Memory> for TestFault {
    ghost use Rattle.std.specs.Prelude.{◌≡◌};
    ghost use Rattle.cc_tests.specs.declared.fault.TestFault.TheVariants.{Memory};

    ghost from_gives = { λ _ fault. fault ≡ Memory };

    fn from(_: Memory) -> TestFault {
        TestFault::Memory
    }
}
