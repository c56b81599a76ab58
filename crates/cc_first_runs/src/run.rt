// Runs with a stack of calls.

ghost use Rattle.std.specs.Prelude.{◌≡◌, ◌+◌, ◌*◌, ◌<◌, ◌≤◌, IfOk, [], ◌∷◌, ◌++◌, None, length, position, bytes_eq};
ghost use Rattle.cc_first_runs.specs.Runs.{run, designated as number_of};
ghost use Rattle.cc_first_runs.specs.Stacks.{program_view, name_of, NextIs, Enters, GoesOn, Calls, told_view};

use crate::event::{End, Event, Site};
use crate::machine::{Frame, Function, Machine, Next, Told};
use std::alloc::{AllocError, Global};

// The number of the first function with this name.
fn designated(program: &[Function], name: &str) -> Option<usize>
    ensures { result ≡ position (λ function. bytes_eq function.name.now name.now) program.now }
{
    program.iter().position(|function| function.name == name)
}

// What the activation of a frame does next.
fn next_of(program: &[Function], frame: Frame) -> Next
    ensures is { NextIs (program_view program.now) frame result }
{
    match program.get(frame.function) {
        None => Next::Over,
        Some(function) => match function.calls.get(frame.next) {
            None => Next::Over,
            Some(name) => match designated(program, *name) {
                None => Next::NoBody,
                Some(callee) => Next::Callee(callee),
            },
        },
    }
}

impl Machine {
    // Enters a function, unless no turn is left or it has no body.
    fn enter(
        &mut self,
        program: &[Function],
        site: Option<Site>,
        callee: usize,
    ) -> Result<Option<End>, AllocError>
        ensures { IfOk result (λ end. Enters (length program.now) site callee self.old end self.new) }
    {
        if self.turns == 0 {
            return Ok(Some(End::TurnsOut));
        }
        self.turns -= 1;
        if callee >= program.len() {
            return Ok(Some(End::NoBody));
        }
        let act = self.next_act;
        self.next_act += 1;
        self.events.push(Event::Enter { site, callee, act })?;
        self.frames.push(Frame {
            function: callee,
            next: 0,
            act,
        })?;
        Ok(None)
    }

    // Does what the activation of a frame does next; the frame stands above the others.
    fn step(&mut self, program: &[Function], frame: Frame) -> Result<Option<End>, AllocError>
        ensures does { IfOk result (λ end. GoesOn (program_view program.now) frame self.old end self.new) }
        ensures room { IfOk result (λ end. end ≡ None → self.new.turns + length self.new.frames.items ≤ self.old.turns + (length self.old.frames.items + 1)) }
        ensures less { IfOk result (λ end. end ≡ None → 2 * self.new.turns + length self.new.frames.items < 2 * self.old.turns + (length self.old.frames.items + 1)) }
    {
        match next_of(program, frame) {
            Next::Over => {
                self.events.push(Event::Leave {
                    ret: None,
                    act: frame.act,
                })?;
                Ok(None)
            }
            Next::NoBody => Ok(Some(End::NoBody)),
            Next::Callee(callee) => {
                let site = Site {
                    f: frame.function,
                    i: frame.next,
                };
                let next = frame.next + 1;
                self.frames.push(Frame {
                    function: frame.function,
                    next,
                    act: frame.act,
                })?;
                self.enter(program, Some(site), callee)
            }
        }
    }

    // A test's call, where no activation has begun.
    fn call(&mut self, program: &[Function], callee: usize) -> Result<Option<End>, AllocError>
        requires { self.old.frames.items ≡ [] }
        ensures does { IfOk result (λ end. Calls (program_view program.now) callee self.old end self.new) }
        ensures back { IfOk result (λ end. end ≡ None → (self.new.frames.items ≡ []) × (self.new.turns ≤ self.old.turns)) }
    {
        if let Some(end) = self.enter(program, None, callee)? {
            return Ok(Some(end));
        }
        while let Some(frame) = self.frames.pop() {
            if let Some(end) = self.step(program, frame)? {
                return Ok(Some(end));
            }
        }
        Ok(None)
    }
}

/// The run of a program for a test's calls, with so many turns.
pub fn run_events(
    alloc: Global,
    program: &[Function],
    calls: &[usize],
    turns: u32,
) -> Result<Told, AllocError>
    ensures { IfOk result (λ told.
        told_view told ≡ run (program_view program.now) calls.now turns) }
{
    let mut machine = Machine {
        turns,
        next_act: 1,
        events: Vec::new(alloc),
        frames: Vec::new(alloc),
    };
    for call in calls {
        let end = machine.call(program, *call)?;
        if let Some(end) = end {
            return Ok(Told {
                events: machine.events,
                end,
            });
        }
    }
    Ok(Told {
        events: machine.events,
        end: End::Done,
    })
}

#[cfg(test)]
mod tests {
    use super::*;
    use std::test::Fail;

    // A run as text: `G#A` where a test's call enters function number G as activation A, `F.I>G#A` where call number I
    // of F enters it, `-A` where A ends, and then the end. The program is `f`, which calls these names, and `g`, which
    // calls nothing.
    fn run_text(
        alloc: Global,
        names: &[&str],
        calls: &[usize],
        turns: u32,
    ) -> Result<String, Fail> {
        let mut called = Vec::new(alloc);
        for name in names {
            called.push(*name)?;
        }
        let mut program = Vec::new(alloc);
        program.push(Function {
            name: "f",
            file: 0,
            calls: called,
        })?;
        program.push(Function {
            name: "g",
            file: 1,
            calls: Vec::new(alloc),
        })?;
        let told = run_events(alloc, &program, calls, turns)?;
        let mut text = String::new(alloc);
        for event in &told.events {
            let word = match *event {
                Event::Enter {
                    site: None,
                    callee,
                    act,
                } => format!(in alloc; "{callee}#{act} ")?,
                Event::Enter {
                    site: Some(site),
                    callee,
                    act,
                } => {
                    let (f, i) = (site.f, site.i);
                    format!(in alloc; "{f}.{i}>{callee}#{act} ")?
                }
                Event::Leave { act, .. } => format!(in alloc; "-{act} ")?,
            };
            text.push_str(word.as_str())?;
        }
        let end = told.end;
        let word = format!(in alloc; "{end:?}")?;
        text.push_str(word.as_str())?;
        Ok(text)
    }

    #[test]
    fn runs(rt: HostRuntime) -> Result<(), Fail> {
        let cases: [(&[&str], &[usize], u32, &str); 8] = [
            (&["g"], &[0], 5, "0#1 0.0>1#2 -2 -1 Done"),
            (&["g"], &[0], 1, "0#1 TurnsOut"),
            (&["g"], &[0], 0, "TurnsOut"),
            (&["g"], &[], 0, "Done"),
            (&["f", "g"], &[0], 3, "0#1 0.0>0#2 0.0>0#3 TurnsOut"),
            (
                &["g", "g"],
                &[0, 1],
                9,
                "0#1 0.0>1#2 -2 0.1>1#3 -3 -1 1#4 -4 Done",
            ),
            (&["g", "h", "g"], &[0], 9, "0#1 0.0>1#2 -2 NoBody"),
            (&[], &[0, 2], 9, "0#1 -1 NoBody"),
        ];
        for (names, calls, turns, want) in cases {
            let text = run_text(rt.alloc(), names, calls, turns)?;
            assert_eq!(rt; text.as_str(), want);
        }
        Ok(())
    }
}
