// Tests of a program.
use cc_base::{List, Text};
use cc_program::FuncId;

/// Tests, in the order of the project file.
pub type TestList = List<Test>;

/// The calls of a test, in their order.
pub type TestCallList = List<TestCall>;

/// Arguments or answers. They have 64 bits, as the integers of TOML.
pub type NumberList = List<i64>;

/// Texts, in the order of the project file.
pub type TextList = List<Text>;

/// A call of a test.
#[derive(Debug, Drop)]
pub struct TestCall {
    /// The entry that is called.
    pub entry: FuncId,
    /// The arguments, each of them a value of its formal's type.
    pub args: NumberList,
}

/// A test whose calls name functions of the program.
#[derive(Debug, Drop)]
pub struct Test {
    /// Its name.
    pub name: Text,
    /// Its calls.
    pub calls: TestCallList,
    /// What the calls of the environment's functions are answered with.
    pub answers: NumberList,
    /// The most turns that it may take.
    pub turns: u32,
    /// The requirements that it serves.
    pub requirements: TextList,
}
