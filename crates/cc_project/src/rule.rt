// The numbers of the rules J1 to J18 of docs/project-file.md.

/// J1: the format.
pub const FORMAT: u8 = 1;

/// J2: the array of components.
pub const COMPONENTS: u8 = 2;

/// J3: a component's name.
pub const COMPONENT_NAME: u8 = 3;

/// J4: no earlier component has the name.
pub const NEW_COMPONENT: u8 = 4;

/// J5: a component's files.
pub const FILES: u8 = 5;

/// J6: the file was not named before, and is none after the 64th.
pub const NEW_FILE: u8 = 6;

/// J7: a component has no other key.
pub const COMPONENT_KEYS: u8 = 7;

/// J8: the entries.
pub const ENTRIES: u8 = 8;

/// J9: the functions of the environment.
pub const ENVIRONMENT: u8 = 9;

/// J10: the array of tests.
pub const TESTS: u8 = 10;

/// J11: a test's name, which no earlier test has.
pub const TEST_NAME: u8 = 11;

/// J12: a test's turns.
pub const TURNS: u8 = 12;

/// J13: a test's calls, answers and requirements.
pub const TEST_LISTS: u8 = 13;

/// J14: a test has no other key, nor has the document.
pub const OTHER_KEYS: u8 = 14;

/// J15: the array of justified rows.
pub const JUSTIFIED: u8 = 15;

/// J16: the line of a justified row, which no earlier one has.
pub const LINE: u8 = 16;

/// J17: the reason of a justified row.
pub const REASON: u8 = 17;

/// J18: a justified row has no other key.
pub const JUSTIFIED_KEYS: u8 = 18;
