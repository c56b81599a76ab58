// The most of each that a project file may have.

/// The most components.
pub const MOST_COMPONENTS: usize = 64;

/// The most files of a component, and of all components together.
pub const MOST_FILES: usize = 64;

/// The most entries, and the most functions of the environment.
pub const MOST_FUNCTIONS: usize = 256;

/// The most tests.
pub const MOST_TESTS: usize = 1000;

/// The most turns that a test may be given.
pub const MOST_TURNS: i64 = 10_000_000;

/// The most calls of a test.
pub const MOST_CALLS: usize = 10_000;

/// The most arguments of a call.
pub const MOST_ARGUMENTS: usize = 32;

/// The most answers of a test.
pub const MOST_ANSWERS: usize = 100_000;

/// The most requirements of a test.
pub const MOST_REQUIREMENTS: usize = 100;

/// The most justified rows.
pub const MOST_JUSTIFIED: usize = 1000;

/// The most bytes of a name or a requirement.
pub const MOST_NAME_BYTES: usize = 64;

/// The most bytes of a file name.
pub const MOST_FILE_NAME_BYTES: usize = 200;

/// The most bytes of a reason.
pub const MOST_REASON_BYTES: usize = 200;
