// Whole answers of the top call, over files in memory. The expected ones are worked out by hand.
use cc_io::{Shelf, SureShelf, SureSink};
use cc_io_memory::{MemoryShelf, MemorySink};
use cc_top::run;
use std::alloc::Global;
use std::test::Fail;

const PROJECT: &str =
    "format = 1\nentries = [\"f\"]\n[[component]]\nname = \"A\"\nfiles = [\"a.c\"]\n[[component]]\nname = \"B\"\nfiles = [\"b.c\"]\n";

const SAME_NAME: &str =
    "format = 1\nentries = [\"f\"]\n[[component]]\nname = \"A\"\nfiles = [\"a.c\"]\n[[component]]\nname = \"A\"\nfiles = [\"b.c\"]\n";

const SAME_FILE: &str =
    "format = 1\nentries = [\"f\"]\n[[component]]\nname = \"A\"\nfiles = [\"a.c\"]\n[[component]]\nname = \"B\"\nfiles = [\"a.c\"]\n";

const OTHER_ORDER: &str =
    "component = [{files = [\"a.c\"], name = \"A\"}, {name = \"B\", files = [\"b.c\"]}]\nentries = [\"f\"]\nformat = 1\n";

const A: &str = "void g(void);\nvoid f(void) { g(); }\n";

const B: &str = "void g(void) { }\n";

const HEADER: &str = "row,kind,from,to,definition,use,name\n";

const LISTING: &str = "row,kind,from,to,definition,use,name\n1,call,A,B,a.c:2:16,b.c:1:6,g\n";

const USAGE: &str =
    "usage: coupling check|list|score|tests|pairs P | gen N | devices P D | reduce P | order P\n";

const TEST: &str = "[[test]]\nname = \"T1\"\nturns = 1000\ncalls = [[\"f\"]]\n";

// A sensor that calls its owner back, and the owner: two tests, of which none comes to one coupling.
const SENSOR_PROJECT: &str =
    "format = 1\nentries = [\"init\", \"step\"]\nenvironment = [\"read_adc\"]\n[[component]]\nname = \"Sensor\"\nfiles = [\"sensor.c\"]\n[[component]]\nname = \"Control\"\nfiles = [\"control.c\"]\n[[test]]\nname = \"T1\"\nturns = 1000\ncalls = [[\"init\"], [\"step\", 0]]\nanswers = [25]\nrequirements = [\"REQ-1\"]\n[[test]]\nname = \"T2\"\nturns = 1000\ncalls = [[\"step\", 0]]\nanswers = [-1]\nrequirements = [\"REQ-2\"]\n";

const SENSOR: &str =
    "typedef unsigned int uint32_t;\nstruct state { uint32_t raw; int valid; };\nstruct state st;\nint read_adc(int ch);\nstatic void (*handler)(int);\nvoid on_sample(void (*cb)(int)) { handler = cb; }\nvoid sample(int ch)\n{\n  int v = read_adc(ch);\n  st.valid = v >= 0;\n  if (st.valid) {\n    st.raw = (uint32_t)v;\n    if (handler != 0)\n      handler(v);\n  }\n}\n";

const CONTROL: &str =
    "typedef unsigned int uint32_t;\nstruct state { uint32_t raw; int valid; };\nextern struct state st;\nvoid on_sample(void (*cb)(int));\nvoid sample(int ch);\nstatic int last;\nint demand;\nstatic void note(int v) { last = v; }\nvoid init(void) { on_sample(note); }\nvoid step(int ch)\n{\n  sample(ch);\n  if (st.valid)\n    demand = (int)st.raw + last;\n}\n";

const SENSOR_SCORE: &str =
    "row,kind,from,to,definition,use,name,test\n1,call,Sensor,Control,sensor.c:14:7,control.c:8:13,note,T1\n2,call,Control,Sensor,control.c:9:19,sensor.c:6:6,on_sample,T1\n3,call,Control,Sensor,control.c:12:3,sensor.c:7:6,sample,T1\n4,shared,Sensor,Control,sensor.c:3:14,control.c:14:21,st,-\n5,shared,Sensor,Control,sensor.c:10:5,control.c:13:9,st,T1\n6,shared,Sensor,Control,sensor.c:12:7,control.c:14:21,st,T1\n7,parameter,Sensor,Control,sensor.c:9:7,control.c:8:34,note/1@sensor.c:14:7,T1\n8,parameter,Control,Sensor,control.c:9:29,sensor.c:6:45,on_sample/1@control.c:9:19,T1\n9,parameter,Control,Sensor,control.c:10:15,sensor.c:9:20,sample/1@control.c:12:3,T1\ncall-coupling met 3/3\nall-coupling-defs not met 5/6\nall-coupling-uses not met 5/6\n";

const SENSOR_TESTS: &str =
    "test,requirement,row,end\nT1,REQ-1,1,done\nT1,REQ-1,2,done\nT1,REQ-1,3,done\nT1,REQ-1,5,done\nT1,REQ-1,6,done\nT1,REQ-1,7,done\nT1,REQ-1,8,done\nT1,REQ-1,9,done\nT2,REQ-2,3,done\nT2,REQ-2,5,done\nT2,REQ-2,9,done\n";

const SENSOR_PAIRS: &str =
    "from,to,call,call_covered,shared,shared_covered,parameter,parameter_covered,return,return_covered\nSensor,Control,1,1,3,2,1,1,0,0\nControl,Sensor,2,2,0,0,2,2,0,0\n";

const SENSOR_REDUCED: &str = "test,kept,rows\nT1,yes,8\nT2,no,3\nkept 1 of 2\n";

const SENSOR_ORDERED: &str = "place,test,new,total\n1,T1,8,8\n2,T2,0,8\n";

// Each macro has the one before twice: the last stands for 2^21 tokens.
const DOUBLING: &str =
    "#define A x\n#define B A A\n#define C B B\n#define D C C\n#define E D D\n#define F E E\n#define G F F\n#define H G G\n#define I H H\n#define J I I\n#define K J J\n#define L K K\n#define M L L\n#define N M M\n#define O N N\n#define P O O\n#define Q P P\n#define R Q Q\n#define S R R\n#define T S S\n#define U T T\n#define V U U\nint V;\n";

// The most bytes that a file may have.
const LIMIT: usize = 1_048_576;

// Whether the answer to these words is this text on out, this on err, and this status.
fn answers<S: Shelf>(
    alloc: Global,
    words: &[&str],
    shelf: &mut S,
    out: &str,
    err: &str,
    status: u8,
) -> Result<bool, Fail> {
    let mut given = Vec::new(alloc);
    for word in words {
        given.push(String::from_str(alloc, word)?)?;
    }
    let mut out_sink = SureSink::new(alloc);
    let mut err_sink = SureSink::new(alloc);
    let ended = run(alloc, &given, shelf, &mut out_sink, &mut err_sink);
    Ok(ended == status && out_sink.held() == out.as_bytes() && err_sink.held() == err.as_bytes())
}

// Whether this is the answer of `list` for a project of these files.
fn lists(
    alloc: Global,
    project: &str,
    a: &str,
    b: &str,
    out: &str,
    err: &str,
    status: u8,
) -> Result<bool, Fail> {
    let mut shelf = SureShelf::new(alloc);
    shelf.add("p.toml", project.as_bytes())?;
    shelf.add("a.c", a.as_bytes())?;
    shelf.add("b.c", b.as_bytes())?;
    answers(alloc, &["list", "p.toml"], &mut shelf, out, err, status)
}

#[test]
fn tables(rt: HostRuntime) -> Result<(), Fail> {
    let cases = [
        (PROJECT, A, B, LISTING),
        (OTHER_ORDER, A, B, LISTING),
        // Nothing leads from the call of f on.
        (
            PROJECT,
            "void g(void);\nvoid f(void) { f(); g(); }\n",
            B,
            HEADER,
        ),
        // Calls inside one component, and calls back into the first.
        (
            PROJECT,
            "void x(void);void k(void){}\nvoid f(void){k();x();}",
            "void k(void);\nvoid z(void){\n\tk();}void x(void){z();k();}",
            "row,kind,from,to,definition,use,name\n1,call,A,B,a.c:2:18,b.c:3:12,x\n2,call,B,A,b.c:3:2,a.c:1:19,k\n3,call,B,A,b.c:3:24,a.c:1:19,k\n",
        ),
    ];
    for (project, a, b, table) in cases {
        assert!(rt; lists(rt.alloc(), project, a, b, table, "", 0)?, "{a}{b}");
    }
    Ok(())
}

// Files that are not of the first form: they are read as any others.
#[test]
fn other_files(rt: HostRuntime) -> Result<(), Fail> {
    let cases = [
        (A, "int g;", "", "b.c:1:5: link K1\n", 3),
        // A name that doesn't stand earlier in the second file.
        (
            "void x(void);void y(void);void k(void){}\nvoid f(void){k();x();y();}",
            "void f(void);\nvoid z(void){y();}",
            "",
            "b.c:2:14: offence C35\n",
            3,
        ),
        ("/* */ void f(void) { }", B, HEADER, "", 0),
        ("# 1 \"a.c\"\n", "int g;", "", "entry f: link K6\n", 3),
        ("void f(void) { g()", B, "", "a.c:1:19: syntax\n", 3),
        ("void asm(void) { }", B, "", "a.c:1:6: offence C14\n", 3),
        (
            "int v;\nvoid g(void);\nvoid f(void) { v = 7; g(); }\n",
            "extern int v;\nint w;\nvoid g(void) { w = v; }\n",
            "row,kind,from,to,definition,use,name\n1,call,A,B,a.c:3:23,b.c:3:6,g\n2,shared,A,B,a.c:3:16,b.c:3:20,v\n",
            "",
            0,
        ),
    ];
    for (a, b, out, err, status) in cases {
        assert!(rt;
            lists(rt.alloc(), PROJECT, a, b, out, err, status)?,
            "{a}{b}"
        );
    }
    Ok(())
}

// Projects that are refused, and files that make no whole program.
#[test]
fn refused_projects(rt: HostRuntime) -> Result<(), Fail> {
    let cases = [
        (PROJECT, A, "", "a.c:2:16: link K3\n"),
        (
            PROJECT,
            A,
            "void g(void) { } void f(void) { }",
            "b.c:1:23: link K2\n",
        ),
        (PROJECT, "", B, "entry f: link K6\n"),
        (SAME_NAME, A, B, "p.toml: J4 component[1].name\n"),
        (SAME_FILE, A, B, "p.toml: J6 component[1].files[0]\n"),
        ("format = ", A, B, "p.toml: not TOML\n"),
        ("", A, B, "p.toml: J1 format\n"),
    ];
    for (project, a, b, err) in cases {
        assert!(rt;
            lists(rt.alloc(), project, a, b, "", err, 3)?,
            "{project}{a}{b}"
        );
    }
    Ok(())
}

#[test]
fn words(rt: HostRuntime) -> Result<(), Fail> {
    let mut shelf = SureShelf::new(rt.alloc());
    shelf.add("p.toml", PROJECT.as_bytes())?;
    let cases: [&[&str]; 10] = [
        &[],
        &["list"],
        &["check"],
        &["list", "a", "b"],
        &["gen"],
        &["gen", "0"],
        &["gen", "61"],
        &["gen", "07"],
        &["gen", "100"],
        &["draw", "p.toml"],
    ];
    for words in cases {
        assert!(rt;
            answers(rt.alloc(), words, &mut shelf, "", USAGE, 2)?,
            "{words:?}"
        );
    }
    Ok(())
}

#[test]
fn files(rt: HostRuntime) -> Result<(), Fail> {
    let mut shelf = SureShelf::new(rt.alloc());
    shelf.add("p.toml", PROJECT.as_bytes())?;
    shelf.add("a.c", A.as_bytes())?;
    let long = vec![in rt.alloc(); b' '; LIMIT + 1]?;
    shelf.add("long.toml", &long)?;
    let blank = vec![in rt.alloc(); b' '; LIMIT]?;
    shelf.add("blank.toml", &blank)?;
    let cases = [
        ("p.toml", "b.c: missing\n"),
        ("q.toml", "q.toml: missing\n"),
        ("long.toml", "long.toml: too long\n"),
        ("blank.toml", "blank.toml: J1 format\n"),
    ];
    for (project, err) in cases {
        assert!(rt;
            answers(rt.alloc(), &["list", project], &mut shelf, "", err, 3)?,
            "{project}"
        );
    }
    Ok(())
}

// Whole C files: two files of one component each, a test, and what is counted of them.
#[test]
fn counts(rt: HostRuntime) -> Result<(), Fail> {
    let mut shelf = SureShelf::new(rt.alloc());
    let project = format!(in rt.alloc();
        "{PROJECT}[[test]]\nname = \"T\"\nturns = 9\ncalls = [[\"f\", 300]]\n"
    )?;
    shelf.add("p.toml", project.as_bytes())?;
    shelf.add(
        "b.c",
        b"static int n; int *g(void) { static int m; return n ? &m : &n; }",
    )?;
    let cases = [
        (
            "int f(short x) { return x; }",
            "ok components 2 files 2 functions 2 objects 2 tests 1\n",
            "",
            0,
        ),
        ("int f(char x) { return x; }", "", "test T call 1: B3\n", 3),
        (
            "int f(int x) { return y; }",
            "",
            "a.c:1:23: offence C35\n",
            3,
        ),
        ("int f(int x) { return x;", "", "a.c:1:25: syntax\n", 3),
    ];
    for (a, out, err, status) in cases {
        shelf.add("a.c", a.as_bytes())?;
        assert!(rt;
            answers(
                rt.alloc(),
                &["check", "p.toml"],
                &mut shelf,
                out,
                err,
                status
            )?,
            "{a}"
        );
    }
    Ok(())
}

// Macros and a header: what they make, macros that stand for too many tokens, and a header that isn't there.
#[test]
fn macros(rt: HostRuntime) -> Result<(), Fail> {
    let mut shelf = SureShelf::new(rt.alloc());
    shelf.add("p.toml", PROJECT.as_bytes())?;
    shelf.add("g.h", b"#ifndef G\n#define G\nvoid g(void);\n#endif\n")?;
    shelf.add("b.c", b"#include \"g.h\"\nvoid g(void) { }\n")?;
    let cases = [
        (
            "#include \"g.h\"\n#define CALL g()\nvoid f(void) { CALL; }\n",
            "ok components 2 files 2 functions 2 objects 0 tests 0\n",
            "",
            0,
        ),
        (DOUBLING, "", "a.c:23:5: directive M7\n", 3),
        ("#include \"h.h\"\n", "", "h.h: missing\n", 3),
    ];
    for (a, out, err, status) in cases {
        shelf.add("a.c", a.as_bytes())?;
        assert!(rt;
            answers(
                rt.alloc(),
                &["check", "p.toml"],
                &mut shelf,
                out,
                err,
                status
            )?,
            "{a}"
        );
    }
    Ok(())
}

// Two files that share a variable, with one test that exercises all.
#[test]
fn scores(rt: HostRuntime) -> Result<(), Fail> {
    let mut shelf = MemoryShelf::new(rt.alloc(), &[])?;
    let project = format!(in rt.alloc(); "{PROJECT}{TEST}")?;
    shelf.add("p.toml", project.as_bytes())?;
    shelf.add(
        "a.c",
        b"int v;\nvoid g(void);\nvoid f(void) { v = 7; g(); }\n",
    )?;
    shelf.add("b.c", b"extern int v;\nint w;\nvoid g(void) { w = v; }\n")?;
    let table =
        "row,kind,from,to,definition,use,name,test\n1,call,A,B,a.c:3:23,b.c:3:6,g,T1\n2,shared,A,B,a.c:3:16,b.c:3:20,v,T1\ncall-coupling met 1/1\nall-coupling-defs met 1/1\nall-coupling-uses met 1/1\n";
    assert!(rt; answers(rt.alloc(), &["score", "p.toml"], &mut shelf, table, "", 0)?);
    Ok(())
}

// A shelf with the sensor and its owner, of which these reads fail.
fn sensor(alloc: Global, fails: &[u64]) -> Result<MemoryShelf, Fail> {
    let mut shelf = MemoryShelf::new(alloc, fails)?;
    shelf.add("p.toml", SENSOR_PROJECT.as_bytes())?;
    shelf.add("sensor.c", SENSOR.as_bytes())?;
    shelf.add("control.c", CONTROL.as_bytes())?;
    Ok(shelf)
}

#[test]
fn reports(rt: HostRuntime) -> Result<(), Fail> {
    let mut shelf = sensor(rt.alloc(), &[])?;
    let cases = [
        ("score", SENSOR_SCORE, 1),
        ("tests", SENSOR_TESTS, 0),
        ("pairs", SENSOR_PAIRS, 0),
        ("reduce", SENSOR_REDUCED, 0),
        ("order", SENSOR_ORDERED, 0),
    ];
    for (word, out, status) in cases {
        assert!(rt;
            answers(rt.alloc(), &[word, "p.toml"], &mut shelf, out, "", status)?,
            "{word}"
        );
    }
    Ok(())
}

// Generated projects: nothing is read from the shelf.
#[test]
fn generated(rt: HostRuntime) -> Result<(), Fail> {
    let mut shelf = MemoryShelf::new(rt.alloc(), &[])?;
    let cases = [
        (
            "1",
            "generated 1: components 1 rows 0 covered 0\ncall-coupling met 0/0\nall-coupling-defs met 0/0\nall-coupling-uses met 0/0\n",
            0,
        ),
        (
            "3",
            "generated 3: components 3 rows 180 covered 160\ncall-coupling met 40/40\nall-coupling-defs met 100/100\nall-coupling-uses not met 120/140\n",
            1,
        ),
    ];
    for (count, out, status) in cases {
        assert!(rt;
            answers(rt.alloc(), &["gen", count], &mut shelf, out, "", status)?,
            "{count}"
        );
    }
    Ok(())
}

// A shelf with a project of these two files and one test, of which these reads fail.
fn two_files(alloc: Global, a: &str, b: &str, fails: &[u64]) -> Result<MemoryShelf, Fail> {
    let mut shelf = MemoryShelf::new(alloc, fails)?;
    let project = format!(in alloc; "{PROJECT}{TEST}")?;
    shelf.add("p.toml", project.as_bytes())?;
    shelf.add("a.c", a.as_bytes())?;
    shelf.add("b.c", b.as_bytes())?;
    Ok(shelf)
}

// Whether this command of the project leaves these texts on out and err, and this status, where out has so much room
// and where the puts of the two lists fail, those of out first.
fn leaves(
    alloc: Global,
    command: &str,
    shelf: &mut MemoryShelf,
    room: u64,
    fails: [&[u64]; 2],
    texts: [&str; 2],
    status: u8,
) -> Result<bool, Fail> {
    let mut words = Vec::new(alloc);
    words.push(String::from_str(alloc, command)?)?;
    words.push(String::from_str(alloc, "p.toml")?)?;
    let mut out = MemorySink::new(alloc, room, fails[0])?;
    let mut err = MemorySink::new(alloc, 99, fails[1])?;
    let ended = run(alloc, &words, shelf, &mut out, &mut err);
    Ok(ended == status && out.held() == texts[0].as_bytes() && err.held() == texts[1].as_bytes())
}

// A table that is longer than out's room, a refusal whose line isn't taken, and a project file that can't be read.
#[test]
fn faults_of_list(rt: HostRuntime) -> Result<(), Fail> {
    let banned = "int a;\nfloat b;\nunion u { int i; };\n";
    let texts = ["row,kind,f", "write fault\n"];
    let mut shelf = two_files(rt.alloc(), A, B, &[])?;
    assert!(rt; leaves(rt.alloc(), "list", &mut shelf, 10, [&[], &[]], texts, 4)?);
    let mut shelf = two_files(rt.alloc(), banned, "", &[])?;
    assert!(rt; leaves(rt.alloc(), "list", &mut shelf, 99, [&[], &[1]], ["", ""], 4)?);
    let texts = ["", "p.toml: read fault\n"];
    let mut shelf = two_files(rt.alloc(), A, B, &[1])?;
    assert!(rt; leaves(rt.alloc(), "list", &mut shelf, 99, [&[], &[]], texts, 4)?);
    Ok(())
}

// Each read and each put of `score` fails in turn, a put on err with and without the fault that it is to tell. There
// is no fourth read and no second put, so nothing comes of those.
#[test]
fn faults_of_score(rt: HostRuntime) -> Result<(), Fail> {
    let cases: [([&[u64]; 3], [&str; 2], u8); 12] = [
        ([&[1], &[], &[]], ["", "p.toml: read fault\n"], 4),
        ([&[2], &[], &[]], ["", "sensor.c: read fault\n"], 4),
        ([&[3], &[], &[]], ["", "control.c: read fault\n"], 4),
        ([&[4], &[], &[]], [SENSOR_SCORE, ""], 1),
        ([&[], &[1], &[]], ["", "write fault\n"], 4),
        ([&[], &[2], &[]], [SENSOR_SCORE, ""], 1),
        ([&[1], &[], &[1]], ["", ""], 4),
        ([&[2], &[], &[1]], ["", ""], 4),
        ([&[3], &[], &[1]], ["", ""], 4),
        ([&[], &[1], &[1]], ["", ""], 4),
        ([&[], &[1], &[2]], ["", "write fault\n"], 4),
        ([&[], &[], &[1]], [SENSOR_SCORE, ""], 1),
    ];
    for ([reads, out, err], texts, status) in cases {
        let mut shelf = sensor(rt.alloc(), reads)?;
        assert!(rt;
            leaves(
                rt.alloc(),
                "score",
                &mut shelf,
                4096,
                [out, err],
                texts,
                status
            )?,
            "{reads:?} {out:?} {err:?}"
        );
    }
    Ok(())
}

// A sink that takes ten bytes alone, and one whose put fails.
#[test]
fn failing_sinks(rt: HostRuntime) -> Result<(), Fail> {
    let mut shelf = MemoryShelf::new(rt.alloc(), &[])?;
    let mut words = Vec::new(rt.alloc());
    for word in ["gen", "1"] {
        words.push(String::from_str(rt.alloc(), word)?)?;
    }
    let mut out = MemorySink::new(rt.alloc(), 10, &[])?;
    let mut err = MemorySink::new(rt.alloc(), 99, &[])?;
    assert!(rt; run(rt.alloc(), &words, &mut shelf, &mut out, &mut err) == 4);
    assert!(rt; out.held() == "generated ".as_bytes() && err.held() == "write fault\n".as_bytes());
    let mut failing = MemorySink::new(rt.alloc(), 99, &[1])?;
    assert!(rt; run(rt.alloc(), &[], &mut shelf, &mut out, &mut failing) == 4);
    assert!(rt; out.held() == "generated ".as_bytes() && failing.held().is_empty());
    Ok(())
}
