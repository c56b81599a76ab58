//! Lists the couplings between the components of a C project.
#![tactic(auto)]

use cc_io::{HostShelf, StreamSink};
use std::io::ErrorKind;
use std::process::ExitCode;
use std::rt::Env;
use std::{env, io};

// The words after the program's name.
fn words(rt: &(impl Env + AllocGlobal)) -> io::Result<Vec<String>> {
    let mut words = Vec::new(rt.alloc());
    let mut args = env::args(rt)?;
    let _program = args.next();
    for word in args {
        words.push(word)?;
    }
    Ok(words)
}

fn main(rt: HostRuntime) -> ExitCode {
    let words = match words(&rt) {
        Ok(words) => words,
        Err(e) => {
            return ExitCode::from(match e.kind() {
                ErrorKind::OutOfMemory => 5,
                _ => 4,
            });
        }
    };
    let mut shelf = match words.get(1) {
        Some(project) => HostShelf::beside(&rt, project.as_str()),
        None => HostShelf::new(&rt),
    };
    let mut out = StreamSink::new(rt.stdout());
    let mut err = StreamSink::new(rt.stderr());
    ExitCode::from(cc_top::run(rt.alloc(), &words, &mut shelf, &mut out, &mut err))
}
