// How a run ends, in words.
ghost use Rattle.std.specs.Prelude.{◌≡◌, IfOk, string_bytes};
ghost use Rattle.std.specs.Option.{option_copied};
ghost use Rattle.cc_tables.specs.Ends.{end_text};

use crate::names::place_text;
use cc_base::Memory;
use cc_meaning::End;
use cc_program::Program;
use std::alloc::Global;

/// How a run ends, in words.
pub fn end_text(alloc: Global, program: &Program, ending: Option<&End>) -> Result<String, Memory>
    ensures { IfOk result (λ text. string_bytes text ≡ end_text program.now (option_copied ending.entry)) }
{
    let text = match ending {
        None => String::from_str(alloc, "-")?,
        Some(End::Done) => String::from_str(alloc, "done")?,
        Some(End::TurnsOut) => String::from_str(alloc, "turns")?,
        Some(End::CellsOut) => String::from_str(alloc, "cells")?,
        Some(End::EnvDry { at }) => {
            let place = place_text(alloc, program, *at)?;
            format!(in alloc; "env {place}")?
        }
        Some(End::Undefined { at, kind }) => {
            let place = place_text(alloc, program, *at)?;
            let number = kind.number();
            format!(in alloc; "undefined U{number} {place}")?
        }
    };
    Ok(text)
}
