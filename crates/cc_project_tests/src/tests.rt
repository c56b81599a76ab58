// The rules of `docs/project-file.md` by examples, worked out by hand.

use cc_project::{Project, ProjectFault, RawCall, RawJustified, RawTest, TextList, read_project};
use std::alloc::Global;
use std::test::Fail;

/// A project file, which the rows below change in one place.
const BASE: &str = r#"format = 1
entries = ["f"]
[[component]]
name = "A"
files = ["a.c"]
[[component]]
name = "B"
files = ["b.c"]
[[test]]
name = "T1"
turns = 1000
calls = [["f"]]
"#;

// Each row of these tables is a text of `BASE`, what stands in its place, and what `shown` gives.

/// J1, J3, J4 and J7.
const FORMAT_AND_NAMES: [(&str, &str, &str); 16] = [
    ("format = 1\n", "", "J1 format"),
    ("format = 1", "format = 3", "J1 format"),
    ("format = 1", "format = 1.0", "J1 format"),
    ("format = 1", "format = true", "J1 format"),
    ("format = 1", "format = \"1\"", "J1 format"),
    ("name = \"A\"\n", "", "J3 component[0].name"),
    ("\"A\"", "\"\"", "J3 component[0].name"),
    ("\"A\"", "\"9A\"", "J3 component[0].name"),
    ("\"A\"", "\"_A\"", "J3 component[0].name"),
    ("\"A\"", "\"A.B\"", "J3 component[0].name"),
    ("\"A\"", "1979-05-27", "J3 component[0].name"),
    ("\"B\"", "\"caf\u{e9}\"", "J3 component[1].name"),
    ("\"B\"", "\"A\"", "J4 component[1].name"),
    (
        "\"B\"",
        "\"b-2_Z\"",
        "| A b-2_Z | a.c=A b.c=b-2_Z | f | | T1 1000 f()",
    ),
    ("\"A\"", "\"A\"\nkind = 1", "J7 component[0]"),
    ("\"B\"", "\"B\"\nname.x = 1", "not TOML"),
];

/// J5 and J6.
const FILES: [(&str, &str, &str); 16] = [
    ("files = [\"a.c\"]\n", "", "J5 component[0].files"),
    ("[\"a.c\"]", "\"a.c\"", "J5 component[0].files"),
    ("[\"a.c\"]", "[]", "J5 component[0].files"),
    ("[\"a.c\"]", "[\"/a.c\", 1]", "J5 component[0].files"),
    ("\"a.c\"", "\"/a.c\"", "J5 component[0].files[0]"),
    ("\"a.c\"", "\"a/../b.c\"", "J5 component[0].files[0]"),
    ("\"a.c\"", "\"..\"", "J5 component[0].files[0]"),
    ("\"a.c\"", "\"a/..\"", "J5 component[0].files[0]"),
    ("\"a.c\"", "\"\"", "J5 component[0].files[0]"),
    ("\"a.c\"", "\"a b.c\"", "J5 component[0].files[0]"),
    (
        "\"a.c\"",
        "\"a.c\", \"x\\\\y.c\"",
        "J5 component[0].files[1]",
    ),
    (
        "\"a.c\"",
        "\"..a/b../...\"",
        "| A B | ..a/b../...=A b.c=B | f | | T1 1000 f()",
    ),
    (
        "\"b.c\"",
        "\"./b.c\", \"d//e.h\"",
        "| A B | a.c=A ./b.c=B d//e.h=B | f | | T1 1000 f()",
    ),
    ("\"b.c\"", "\"a.c\"", "J6 component[1].files[0]"),
    (
        "\"a.c\"",
        "\"a.c\", \"b.c\", \"a.c\"",
        "J6 component[0].files[2]",
    ),
    (
        "\"b.c\"",
        "\"b.c\", \"B.c\", \"b.c\"",
        "J6 component[1].files[2]",
    ),
];

/// J8.
const ENTRIES: [(&str, &str, &str); 13] = [
    ("entries = [\"f\"]\n", "", "J8 entries"),
    ("[\"f\"]", "\"f\"", "J8 entries"),
    ("[\"f\"]", "[]", "J8 entries"),
    ("[\"f\"]", "[\"while\", 2]", "J8 entries"),
    ("\"f\"", "\"while\"", "J8 entries[0]"),
    ("\"f\"", "\"_Imaginary\"", "J8 entries[0]"),
    ("\"f\"", "\"\"", "J8 entries[0]"),
    ("\"f\"", "\"1f\"", "J8 entries[0]"),
    ("\"f\"", "\"f-g\"", "J8 entries[0]"),
    ("\"f\"", "\"f\", \"g$\"", "J8 entries[1]"),
    ("\"f\"", "\"f\", \"f\"", "J8 entries[1]"),
    ("\"f\"", "\"f\", \"g\", \"h\", \"g\"", "J8 entries[3]"),
    (
        "\"f\"",
        "\"While\", \"_f9\"",
        "| A B | a.c=A b.c=B | While _f9 | | T1 1000 f()",
    ),
];

/// J9. What stands behind `format = 1` is a key of the document.
const ENVIRONMENT: [(&str, &str, &str); 9] = [
    (
        "format = 1",
        "format = 1\nenvironment = \"g\"",
        "J9 environment",
    ),
    (
        "format = 1",
        "format = 1\nenvironment = [\"f\", true]",
        "J9 environment",
    ),
    (
        "format = 1",
        "format = 1\nenvironment = [\"e\", \"f\"]",
        "J9 environment[1]",
    ),
    (
        "format = 1",
        "format = 1\nenvironment = [\"g\", \"g\"]",
        "J9 environment[1]",
    ),
    (
        "format = 1",
        "format = 1\nenvironment = [\"int\"]",
        "J9 environment[0]",
    ),
    (
        "format = 1",
        "format = 1\nenvironment = [\"a b\"]",
        "J9 environment[0]",
    ),
    (
        "format = 1",
        "format = 1\nenvironment = []",
        "| A B | a.c=A b.c=B | f | | T1 1000 f()",
    ),
    (
        "format = 1",
        "format = 1\nenvironment = [\"g\", \"F\"]",
        "| A B | a.c=A b.c=B | f | g F | T1 1000 f()",
    ),
    ("format = 1", "format = 1\nenviron = [\"g\"]", "J14 top"),
];

/// J10, J11 and J12.
const TESTS: [(&str, &str, &str); 17] = [
    ("[[test]]", "[test]", "J10 test"),
    ("format = 1", "test = [1]\nformat = 1", "not TOML"),
    ("name = \"T1\"\n", "", "J11 test[0].name"),
    ("\"T1\"", "\"T 1\"", "J11 test[0].name"),
    ("\"T1\"", "1", "J11 test[0].name"),
    (
        "[[test]]",
        "[[test]]\nname = \"T1\"\nturns = 1\ncalls = []\n[[test]]",
        "J11 test[1].name",
    ),
    (
        "[[test]]",
        "[[test]]\nname = \"t1\"\nturns = 1\ncalls = []\n[[test]]",
        "| A B | a.c=A b.c=B | f | | t1 1 | T1 1000 f()",
    ),
    ("turns = 1000\n", "", "J12 test[0].turns"),
    ("1000", "0", "J12 test[0].turns"),
    ("1000", "-1", "J12 test[0].turns"),
    ("1000", "10_000_001", "J12 test[0].turns"),
    ("1000", "9223372036854775807", "J12 test[0].turns"),
    ("1000", "1e3", "J12 test[0].turns"),
    ("1000", "\"1000\"", "J12 test[0].turns"),
    (
        "1000",
        "10_000_000",
        "| A B | a.c=A b.c=B | f | | T1 10000000 f()",
    ),
    ("1000", "1", "| A B | a.c=A b.c=B | f | | T1 1 f()"),
    (
        "[[test]]\nname = \"T1\"\nturns = 1000\ncalls = [[\"f\"]]\n",
        "",
        "| A B | a.c=A b.c=B | f |",
    ),
];

/// The calls of J13.
const CALLS: [(&str, &str, &str); 12] = [
    ("calls = [[\"f\"]]\n", "", "J13 test[0].calls"),
    ("[[\"f\"]]", "\"f\"", "J13 test[0].calls"),
    ("[[\"f\"]]", "[\"f\"]", "J13 test[0].calls[0]"),
    ("[[\"f\"]]", "[[]]", "J13 test[0].calls[0]"),
    ("[[\"f\"]]", "[[\"f\", \"x\"]]", "J13 test[0].calls[0]"),
    ("[[\"f\"]]", "[[\"f\"], [1, 2]]", "J13 test[0].calls[1]"),
    (
        "[[\"f\"]]",
        "[[\"f\", 1], [\"f\", 1, 2.0]]",
        "J13 test[0].calls[1]",
    ),
    ("[[\"f\"]]", "[{ f = 1 }]", "J13 test[0].calls[0]"),
    ("[[\"f\"]]", "[]", "| A B | a.c=A b.c=B | f | | T1 1000"),
    (
        "[[\"f\"]]",
        "[[\"\"\"\r\na\r\nb\"\"\"]]",
        "| A B | a.c=A b.c=B | f | | T1 1000 a\r\nb()",
    ),
    (
        "[[\"f\"]]",
        "[[\"f\", -5, 0x10], [\"no name\"]]",
        "| A B | a.c=A b.c=B | f | | T1 1000 f(-5,16) no name()",
    ),
    (
        "[[\"f\"]]",
        "[[\"f\", -9223372036854775808, 9223372036854775807]]",
        "| A B | a.c=A b.c=B | f | | T1 1000 f(-9223372036854775808,9223372036854775807)",
    ),
];

/// The answers and requirements of J13, and J14. What stands before `turns = 1000` is a key of the test.
const ANSWERS: [(&str, &str, &str); 13] = [
    ("turns", "answers = 1\nturns", "J13 test[0].answers"),
    (
        "turns",
        "answers = [1, 2, \"3\"]\nturns",
        "J13 test[0].answers[2]",
    ),
    ("turns", "answers = [true]\nturns", "J13 test[0].answers[0]"),
    ("turns", "answers = [0.0]\nturns", "J13 test[0].answers[0]"),
    (
        "turns",
        "answers = [-1, 0, 7]\nturns",
        "| A B | a.c=A b.c=B | f | | T1 1000 f() ? -1 0 7",
    ),
    (
        "turns",
        "requirements = \"R\"\nturns",
        "J13 test[0].requirements",
    ),
    (
        "turns",
        "requirements = [\"R 1\"]\nturns",
        "J13 test[0].requirements[0]",
    ),
    (
        "turns",
        "requirements = [\"R/1\"]\nturns",
        "J13 test[0].requirements[0]",
    ),
    (
        "turns",
        "requirements = [\"\"]\nturns",
        "J13 test[0].requirements[0]",
    ),
    (
        "turns",
        "requirements = [\"R-1\", 2]\nturns",
        "J13 test[0].requirements[1]",
    ),
    (
        "turns",
        "requirements = [\"1.2_a-b\", \"R\", \"R\"]\nturns",
        "| A B | a.c=A b.c=B | f | | T1 1000 f() # 1.2_a-b R R",
    ),
    ("turns", "seed = 1\nturns", "J14 test[0]"),
    ("format = 1", "format = 1\nextra = 1", "J14 top"),
];

/// Format 2: J15 to J18, and J14 of the document. What stands behind the format is a key of the document.
const JUSTIFIED: [(&str, &str, &str); 15] = [
    (
        "format = 1",
        "format = 2",
        "2 | A B | a.c=A b.c=B | f | | T1 1000 f()",
    ),
    (
        "format = 1",
        "format = 2\njustified = []",
        "2 | A B | a.c=A b.c=B | f | | T1 1000 f()",
    ),
    (
        "format = 1",
        "format = 2\njustified = [{ line = \"\", reason = \"a-Z_9 .:/\" }, { reason = \"b\", line = \"x,y\" }]",
        "2 | A B | a.c=A b.c=B | f | | T1 1000 f() |  ! a-Z_9 .:/ | x,y ! b",
    ),
    ("format = 1", "format = 1\njustified = []", "J14 top"),
    ("format = 1", "format = 2\nextra = 1", "J14 top"),
    (
        "format = 1",
        "format = 2\njustified = { line = \"x\", reason = \"r\" }",
        "J15 justified",
    ),
    (
        "format = 1",
        "format = 2\nextra = 1\njustified = [{ line = 1 }, 1]",
        "J15 justified",
    ),
    (
        "format = 1",
        "format = 2\njustified = [{ reason = \"r\" }]",
        "J16 justified[0].line",
    ),
    (
        "format = 1",
        "format = 2\njustified = [{ line = 1, reason = \"r\" }]",
        "J16 justified[0].line",
    ),
    (
        "format = 1",
        "format = 2\njustified = [{ line = \"x\", reason = \"r\" }, { line = \"x\", reason = \"s\" }]",
        "J16 justified[1].line",
    ),
    (
        "format = 1",
        "format = 2\njustified = [{ line = \"x\" }]",
        "J17 justified[0].reason",
    ),
    (
        "format = 1",
        "format = 2\njustified = [{ line = \"x\", reason = \"\" }]",
        "J17 justified[0].reason",
    ),
    (
        "format = 1",
        "format = 2\njustified = [{ line = \"x\", reason = \"9 of 10\" }]",
        "J17 justified[0].reason",
    ),
    (
        "format = 1",
        "format = 2\njustified = [{ line = \"x\", reason = \"a, b\", test = 1 }]",
        "J17 justified[0].reason",
    ),
    (
        "format = 1",
        "format = 2\njustified = [{ line = \"x\", reason = \"r\", test = 1 }, { line = 1 }]",
        "J18 justified[0]",
    ),
];

/// Two faults: the first by the order of the rules.
const FIRST_OF_TWO: [(&str, &str, &str); 12] = [
    ("format = 1\nentries", "entry", "J1 format"),
    (
        "name = \"A\"\nfiles = [\"a.c\"]",
        "name = \"\"\nfiles = []",
        "J3 component[0].name",
    ),
    (
        "\"a.c\"",
        "\"a.c\", \"a.c\", \"/x\"",
        "J5 component[0].files[2]",
    ),
    (
        "\"a.c\"]\n",
        "\"a.c\", \"a.c\"]\nkind = 1\n",
        "J6 component[0].files[1]",
    ),
    (
        "\"a.c\"]\n[[component]]\nname = \"B\"",
        "\"a.c\"]\nkind = 1\n[[component]]\nname = \"\"",
        "J7 component[0]",
    ),
    (
        "entries = [\"f\"]",
        "environment = [\"g\", \"f\", 1]\nentries = [\"f\", \"f\"]",
        "J8 entries[1]",
    ),
    (
        "entries = [\"f\"]",
        "environment = [\"f\", \"g\", \"g\"]\nentries = [\"f\"]\nextra = 1",
        "J9 environment[0]",
    ),
    ("name = \"T1\"\nturns = 1000", "", "J11 test[0].name"),
    (
        "turns = 1000\ncalls = [[\"f\"]]",
        "turns = 0",
        "J12 test[0].turns",
    ),
    (
        "calls = [[\"f\"]]",
        "requirements = [1]\nanswers = 1\ncalls = [[1]]",
        "J13 test[0].calls[0]",
    ),
    (
        "calls = [[\"f\"]]",
        "requirements = 1\nanswers = [\"\"]\ncalls = []\nseed = 1",
        "J13 test[0].answers[0]",
    ),
    (
        "calls = [[\"f\"]]\n",
        "calls = []\nseed = 1\n[[test]]\nname = \"\"\n",
        "J14 test[0]",
    ),
];

// Each row of these tables is a whole file, and what `shown` gives.

/// No document, and arrays that are none of tables.
const WHOLE: [(&[u8], &str); 17] = [
    (b"format = ", "not TOML"),
    (b"format = 1\nformat = 1", "not TOML"),
    (b"format = 9223372036854775808", "not TOML"),
    (b"format = 1 # \xff", "not TOML"),
    (b"format = 1\ncomponent = [1, ", "not TOML"),
    (b"", "J1 format"),
    (b"# nothing\n", "J1 format"),
    (b"format = [1]", "J1 format"),
    (b"format.x = 1", "J1 format"),
    (b"format = 1", "J2 component"),
    (b"format = 1\ncomponent = 3", "J2 component"),
    (b"format = 1\ncomponent = []", "J2 component"),
    (
        b"format = 1\ncomponent = [{ name = 'A' }, 1]",
        "J2 component",
    ),
    (b"format = 1\n[component]\nname = 'A'", "J2 component"),
    (b"format = 1\ncomponent.name = 'A'", "J2 component"),
    (
        b"format = 1\nentries = ['f']\ntest = [{}, 1]\n[[component]]\nname = 'A'\nfiles = ['a.c']",
        "J10 test",
    ),
    (
        b"format = 1\nentries = ['f']\ntest = []\n[[component]]\nname = 'A'\nfiles = ['a.c']",
        "| A | a.c=A | f |",
    ),
];

/// Edges of TOML 1.1. A file that is TOML breaks a rule here.
const TOML: [(&[u8], &str); 12] = [
    (b"x = 1e308", "J1 format"),
    (b"x = 1e309", "not TOML"),
    (b"x = [1e400]", "not TOML"),
    (b"x = inf", "J1 format"),
    (b"x = 9223372036854775807", "J1 format"),
    (b"x = -9223372036854775809", "not TOML"),
    (b"x = \"\"\"a\r\nb\"\"\"", "J1 format"),
    (b"x = \"\"\"a\rb\"\"\"", "not TOML"),
    (b"x = '''a\rb'''", "not TOML"),
    (b"x = \"\\e[0m\\x41\"", "J1 format"),
    (b"x = { a = 1,\n b = 2, }", "J1 format"),
    (b"x = 07:32", "J1 format"),
];

/// What each file of `ALIKE` says.
const SAID: &str = "| A B | a.c=A d/b.c=B | f | g | T1 16 f(1,-2) ? 3 # R-1";

/// Forms of TOML that read alike.
const ALIKE: [&[u8]; 10] = [
    b"format = 1\nentries = [\"f\"]\nenvironment = [\"g\"]\n[[component]]\nname = \"A\"\nfiles = [\"a.c\"]\n[[component]]\nname = \"B\"\nfiles = [\"d/b.c\"]\n[[test]]\nname = \"T1\"\nturns = 16\ncalls = [[\"f\", 1, -2]]\nanswers = [3]\nrequirements = [\"R-1\"]\n",
    // inline tables
    b"component = [{name = \"A\", files = [\"a.c\"]}, {files = [\"d/b.c\"], name = \"B\"}]\nformat = 1\nentries = [\"f\"]\nenvironment = [\"g\"]\ntest = [{name = \"T1\", turns = 16, calls = [[\"f\", 1, -2]], answers = [3], requirements = [\"R-1\"]}]",
    // `[[component]]` after `[[test]]`, and keys in another order
    b"environment = [\"g\"]\nentries = [\"f\"]\nformat = 1\n[[test]]\nrequirements = [\"R-1\"]\nanswers = [3]\ncalls = [[\"f\", 1, -2]]\nturns = 16\nname = \"T1\"\n[[component]]\nfiles = [\"a.c\"]\nname = \"A\"\n[[component]]\nfiles = [\"d/b.c\"]\nname = \"B\"",
    // comments and blank lines
    b"# a project\n\n  format = 1 # one\nentries = [\"f\"]#\n\tenvironment = [\"g\"]\n\n[[component]] # A\nname = \"A\" # = \"X\"\nfiles = [\"a.c\"]\n# name = \"C\"\n[[ component ]]\nname=\"B\"\nfiles=[\"d/b.c\"]\n[[test]]\nname = \"T1\"\nturns = 16\ncalls = [[\"f\", 1, -2]]\nanswers = [3]\nrequirements = [\"R-1\"]\n# end",
    // CRLF
    b"format = 1\r\nentries = [\"f\"]\r\nenvironment = [\"g\"]\r\n[[component]]\r\nname = \"A\"\r\nfiles = [\"a.c\"]\r\n[[component]]\r\nname = \"B\"\r\nfiles = [\r\n\"d/b.c\"]\r\n[[test]]\r\nname = \"T1\"\r\nturns = 16\r\ncalls = [[\"f\", 1, -2]]\r\nanswers = [3]\r\nrequirements = [\"R-1\"]\r\n",
    // literal strings, strings of several lines, and escapes
    b"format = 1\nentries = ['f']\nenvironment = [\"\"\"g\"\"\"]\n[[component]]\nname = '''A'''\nfiles = ['a.c']\n[[component]]\nname = \"\\u0042\"\nfiles = [\"d/\\u0062.c\"]\n[[test]]\nname = \"T\\U00000031\"\nturns = 16\ncalls = [[\"\"\"\nf\"\"\", 1, -2]]\nanswers = [3]\nrequirements = ['R-1']\n",
    // integers in other bases, with a sign or with underscores
    b"format = 0x1\nentries = [\"f\"]\nenvironment = [\"g\"]\n[[component]]\nname = \"A\"\nfiles = [\"a.c\"]\n[[component]]\nname = \"B\"\nfiles = [\"d/b.c\"]\n[[test]]\nname = \"T1\"\nturns = 0x10\ncalls = [[\"f\", 0b1, -2]]\nanswers = [+3]\nrequirements = [\"R-1\"]\n",
    b"format = 0b1\nentries = [\"f\"]\nenvironment = [\"g\"]\n[[component]]\nname = \"A\"\nfiles = [\"a.c\"]\n[[component]]\nname = \"B\"\nfiles = [\"d/b.c\"]\n[[test]]\nname = \"T1\"\nturns = 0o20\ncalls = [[\"f\", 0o0_1, -2]]\nanswers = [0x00_03]\nrequirements = [\"R-1\"]\n",
    // arrays over several lines
    b"format = 1\nentries = [\n  \"f\",\n]\nenvironment = [ # outside\n\"g\" # one\n, ]\n[[component]]\nname = \"A\"\nfiles = [\n\n\"a.c\"]\n[[component]]\nname = \"B\"\nfiles = [\"d/b.c\"]\n[[test]]\nname = \"T1\"\nturns = 16\ncalls = [\n  [\"f\", # the entry\n   1,\n   -2,\n  ],\n]\nanswers = [\n3]\nrequirements = [\"R-1\"\n]\n",
    // quoted keys
    b"\"format\" = 1\n'entries' = [\"f\"]\n\"environ\\u006Dent\" = [\"g\"]\n[['component']]\n\"name\" = \"A\"\n'files' = [\"a.c\"]\n[[\"component\"]]\nname = \"B\"\nfiles = [\"d/b.c\"]\n[['test']]\nname = \"T1\"\n'turns' = 16\ncalls = [[\"f\", 1, -2]]\nanswers = [3]\nrequirements = [\"R-1\"]\n",
];

// Each row of these tables is a text of `BASE`, what stands in its place, a text that stands so many times at its `@`,
// with its number at `%`, and what the reading gives.

/// The most files, entries, functions of the environment, components, tests and justified rows, and one more.
const MOST: [(&str, &str, &str, usize, &str); 15] = [
    (
        "format = 1",
        "format = 2\njustified = [@]",
        "{ line = \"%\", reason = \"r\" }, ",
        1000,
        "ok",
    ),
    (
        "format = 1",
        "format = 2\njustified = [@]",
        "{ line = \"%\", reason = \"r\" }, ",
        1001,
        "J15 justified",
    ),
    ("\"a.c\"", "@", "\"a%.c\", ", 63, "ok"),
    ("\"a.c\"", "@", "\"a%.c\", ", 64, "J6 component[1].files[0]"),
    ("\"a.c\"", "@", "\"a%.c\", ", 65, "J5 component[0].files"),
    ("\"f\"", "@", "\"f%\", ", 256, "ok"),
    ("\"f\"", "@", "\"f%\", ", 257, "J8 entries"),
    (
        "format = 1",
        "format = 1\nenvironment = [@]",
        "\"f%\", ",
        256,
        "ok",
    ),
    (
        "format = 1",
        "format = 1\nenvironment = [@]",
        "\"f%\", ",
        257,
        "J9 environment",
    ),
    (
        "[[test]]",
        "@[[test]]",
        "[[component]]\nname = \"N%\"\nfiles = [\"n%.c\"]\n",
        62,
        "ok",
    ),
    (
        "[[test]]",
        "@[[test]]",
        "[[component]]\nname = \"N%\"\nfiles = [\"n%.c\"]\n",
        63,
        "J2 component",
    ),
    (
        "[[test]]",
        "@[[test]]",
        "[[test]]\nname = \"N%\"\nturns = 1\ncalls = []\n",
        999,
        "ok",
    ),
    (
        "[[test]]",
        "@[[test]]",
        "[[test]]\nname = \"N%\"\nturns = 1\ncalls = []\n",
        1000,
        "J10 test",
    ),
    ("turns", "requirements = [@]\nturns", "\"R%\", ", 100, "ok"),
    (
        "turns",
        "requirements = [@]\nturns",
        "\"R%\", ",
        101,
        "J13 test[0].requirements",
    ),
];

/// The most arguments, calls, answers and bytes of a text, and one more.
const LONGEST: [(&str, &str, &str, usize, &str); 16] = [
    (
        "format = 1",
        "format = 2\njustified = [{ line = \"x\", reason = \"@\" }]",
        "x",
        200,
        "ok",
    ),
    (
        "format = 1",
        "format = 2\njustified = [{ line = \"x\", reason = \"@\" }]",
        "x",
        201,
        "J17 justified[0].reason",
    ),
    ("[\"f\"]]", "[\"f\", @]]", "%, ", 32, "ok"),
    ("[\"f\"]]", "[\"f\", @]]", "%, ", 33, "J13 test[0].calls[0]"),
    ("[[\"f\"]]", "[@]", "[\"f%\"], ", 10000, "ok"),
    ("[[\"f\"]]", "[@]", "[\"f%\"], ", 10001, "J13 test[0].calls"),
    ("turns", "answers = [@]\nturns", "%, ", 100000, "ok"),
    (
        "turns",
        "answers = [@]\nturns",
        "%, ",
        100001,
        "J13 test[0].answers",
    ),
    ("\"A\"", "\"A@\"", "x", 63, "ok"),
    ("\"A\"", "\"A@\"", "x", 64, "J3 component[0].name"),
    ("\"T1\"", "\"T@\"", "x", 63, "ok"),
    ("\"T1\"", "\"T@\"", "x", 64, "J11 test[0].name"),
    ("\"a.c\"", "\"@\"", "x", 200, "ok"),
    ("\"a.c\"", "\"@\"", "x", 201, "J5 component[0].files[0]"),
    ("turns", "requirements = [\"@\"]\nturns", "x", 64, "ok"),
    (
        "turns",
        "requirements = [\"@\"]\nturns",
        "x",
        65,
        "J13 test[0].requirements[0]",
    ),
];

/// The most parts of a key, and one more.
const NESTED: [(&str, &str, &str, usize, &str); 4] = [
    ("format = 1", "format = 1\n@y = 1", "y.", 79, "J14 top"),
    ("format = 1", "format = 1\n@y = 1", "y.", 80, "not TOML"),
    ("[[test]]", "[@y]\n[[test]]", "y.", 79, "J14 top"),
    ("[[test]]", "[@y]\n[[test]]", "y.", 80, "not TOML"),
];

/// Adds each text behind a space.
fn push_texts(shown: &mut String, texts: &TextList) -> Result<(), Fail> {
    for i in 0..texts.len() {
        shown.push_str(" ")?;
        shown.push_str(texts.get(i).as_str())?;
    }
    Ok(())
}

/// Adds a call, as `f(1,2)`.
fn push_call(alloc: Global, shown: &mut String, call: &RawCall) -> Result<(), Fail> {
    shown.push_str(format!(in alloc; " {}(", call.entry)?.as_str())?;
    for i in 0..call.args.len() {
        if i != 0 {
            shown.push_str(",")?;
        }
        shown.push_str(format!(in alloc; "{}", call.args.get(i))?.as_str())?;
    }
    shown.push_str(")")?;
    Ok(())
}

/// Adds a test: its name, its turns, its calls, its answers behind `?` and its requirements behind `#`.
fn push_test(alloc: Global, shown: &mut String, test: &RawTest) -> Result<(), Fail> {
    shown.push_str(format!(in alloc; " | {} {}", test.name, test.turns)?.as_str())?;
    for i in 0..test.calls.len() {
        push_call(alloc, shown, test.calls.get(i))?;
    }
    if test.answers.len() != 0 {
        shown.push_str(" ?")?;
    }
    for i in 0..test.answers.len() {
        shown.push_str(format!(in alloc; " {}", test.answers.get(i))?.as_str())?;
    }
    if test.requirements.len() != 0 {
        shown.push_str(" #")?;
    }
    push_texts(shown, &test.requirements)
}

/// Adds each file with the name of its component. That there is such a component is a promise of the project.
fn push_files(alloc: Global, shown: &mut String, project: &Project) -> Result<(), Fail> {
    for i in 0..project.files.len() {
        let file = project.files.get(i);
        let component = project.components.get(u64::from(file.component.0));
        shown.push_str(format!(in alloc; " {}={component}", file.name)?.as_str())?;
    }
    Ok(())
}

/// Adds a justified row: its line, and its reason behind `!`.
fn push_justified(alloc: Global, shown: &mut String, row: &RawJustified) -> Result<(), Fail> {
    shown.push_str(format!(in alloc; " | {} ! {}", row.line, row.reason)?.as_str())?;
    Ok(())
}

/// The format where it isn't 1.
fn shown_format(alloc: Global, project: &Project) -> Result<String, Fail> {
    let shown = if project.format == 1 {
        String::new(alloc)
    } else {
        format!(in alloc; "{} ", project.format)?
    };
    Ok(shown)
}

/// Components, files, entries, environment, tests and justified rows, behind bars.
fn shown_project(alloc: Global, project: &Project) -> Result<String, Fail> {
    let mut shown = shown_format(alloc, project)?;
    shown.push_str("|")?;
    push_texts(&mut shown, &project.components)?;
    shown.push_str(" |")?;
    push_files(alloc, &mut shown, project)?;
    shown.push_str(" |")?;
    push_texts(&mut shown, &project.entries)?;
    shown.push_str(" |")?;
    push_texts(&mut shown, &project.environment)?;
    for i in 0..project.tests.len() {
        push_test(alloc, &mut shown, project.tests.get(i))?;
    }
    for i in 0..project.justified.len() {
        push_justified(alloc, &mut shown, project.justified.get(i))?;
    }
    Ok(shown)
}

fn shown_fault(alloc: Global, fault: &ProjectFault) -> Result<String, Fail> {
    let shown = match fault {
        ProjectFault::NotToml => String::from_str(alloc, "not TOML")?,
        ProjectFault::Shape { key, rule } => format!(in alloc; "J{rule} {key}")?,
        ProjectFault::Memory => String::from_str(alloc, "no memory")?,
    };
    Ok(shown)
}

/// What `read_project` answers.
fn shown(alloc: Global, bytes: &[u8]) -> Result<String, Fail> {
    match read_project(alloc, bytes) {
        Ok(project) => shown_project(alloc, &project),
        Err(fault) => shown_fault(alloc, &fault),
    }
}

/// Whether `shown` gives for each file what its row says.
fn files_hold(alloc: Global, rows: &[(&[u8], &str)]) -> Result<bool, Fail> {
    for row in rows {
        if shown(alloc, row.0)?.as_str() != row.1 {
            return Ok(false);
        }
    }
    Ok(true)
}

/// Whether each of these files says what `SAID` shows.
fn are_alike(alloc: Global, files: &[&[u8]]) -> Result<bool, Fail> {
    for file in files {
        if shown(alloc, *file)?.as_str() != SAID {
            return Ok(false);
        }
    }
    Ok(true)
}

/// Whether `shown` gives for `BASE` with each change what the row says.
fn changes_hold(alloc: Global, rows: &[(&str, &str, &str)]) -> Result<bool, Fail> {
    for row in rows {
        let file = BASE.replacen(alloc, row.0, row.1, 1)?;
        if shown(alloc, file.as_str().as_bytes())?.as_str() != row.2 {
            return Ok(false);
        }
    }
    Ok(true)
}

/// The text so many times, with its number, from 0, at `%`.
fn repeated(alloc: Global, text: &str, times: usize) -> Result<String, Fail> {
    let mut all = String::new(alloc);
    for i in 0..times {
        let number = format!(in alloc; "{i}")?;
        all.push_str(text.replace(alloc, "%", number.as_str())?.as_str())?;
    }
    Ok(all)
}

/// What the reading gives for `BASE` where a new text stands, with a repeated text at its `@`.
fn read_repeated(
    alloc: Global,
    old: &str,
    new: &str,
    text: &str,
    times: usize,
) -> Result<String, Fail> {
    let all = repeated(alloc, text, times)?;
    let new = new.replacen(alloc, "@", all.as_str(), 1)?;
    let file = BASE.replacen(alloc, old, new.as_str(), 1)?;
    match read_project(alloc, file.as_str().as_bytes()) {
        Ok(_) => Ok(String::from_str(alloc, "ok")?),
        Err(fault) => shown_fault(alloc, &fault),
    }
}

/// Whether the reading gives what each row says.
fn limits_hold(alloc: Global, rows: &[(&str, &str, &str, usize, &str)]) -> Result<bool, Fail> {
    for row in rows {
        if read_repeated(alloc, row.0, row.1, row.2, row.3)?.as_str() != row.4 {
            return Ok(false);
        }
    }
    Ok(true)
}

/// What `shown` gives for so many arrays, one in another.
fn shown_nested(alloc: Global, depth: usize) -> Result<String, Fail> {
    let mut file = String::from_str(alloc, "x = ")?;
    file.push_str(repeated(alloc, "[", depth)?.as_str())?;
    file.push_str(repeated(alloc, "]", depth)?.as_str())?;
    shown(alloc, file.as_str().as_bytes())
}

#[test]
fn documents(rt: HostRuntime) -> Result<(), Fail> {
    let alloc = rt.alloc();
    assert!(rt; files_hold(alloc, &WHOLE)?);
    assert!(rt; files_hold(alloc, &TOML)?);
    assert!(rt; are_alike(alloc, &ALIKE)?);
    assert!(rt; changes_hold(alloc, &FORMAT_AND_NAMES)?);
    assert!(rt; changes_hold(alloc, &FILES)?);
    assert!(rt; changes_hold(alloc, &ENTRIES)?);
    Ok(())
}

#[test]
fn parts_of_tests(rt: HostRuntime) -> Result<(), Fail> {
    let alloc = rt.alloc();
    assert!(rt; changes_hold(alloc, &ENVIRONMENT)?);
    assert!(rt; changes_hold(alloc, &TESTS)?);
    assert!(rt; changes_hold(alloc, &CALLS)?);
    assert!(rt; changes_hold(alloc, &ANSWERS)?);
    assert!(rt; changes_hold(alloc, &FIRST_OF_TWO)?);
    assert!(rt; changes_hold(alloc, &JUSTIFIED)?);
    Ok(())
}

#[test]
fn limits(rt: HostRuntime) -> Result<(), Fail> {
    let alloc = rt.alloc();
    assert!(rt; limits_hold(alloc, &MOST)?);
    assert!(rt; limits_hold(alloc, &LONGEST)?);
    assert!(rt; limits_hold(alloc, &NESTED)?);
    assert!(rt; shown_nested(alloc, 80)?.as_str() == "J1 format");
    assert!(rt; shown_nested(alloc, 81)?.as_str() == "not TOML");
    Ok(())
}
