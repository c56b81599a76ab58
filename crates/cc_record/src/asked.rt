// Which names' reads are asked for: those of named arguments and returns.
ghost use Rattle.std.specs.Prelude.{◌≡◌, IfOk, OnOk};
ghost use Rattle.cc_record_laws.specs.Watching.{Asks};
ghost use Rattle.cc_record_tables.specs.ActivationTable.{SameAnswers, answers_of};
ghost use Rattle.cc_record.specs.Roles.{roles_of};
ghost use Rattle.cc_record.specs.Asked as spec;

use cc_base::Memory;
use cc_program::Program;
use cc_record_tables::Activations;
use cc_roles::{arguments, named, returned};
use std::alloc::Global;

// Whether what the occurrence reads is asked for. Past the end of the table all is.
fn is_asked(asked: &[bool], occ: u32) -> bool
    ensures { result ≡ spec.is_asked asked.now occ }
{
    match asked.get(occ as usize) {
        Some(is_asked) => *is_asked,
        None => true,
    }
}

// Marks a name, if there is one.
fn mark(asked: &mut Vec<bool>, name: Option<u32>)
    ensures kept { spec.Grows asked.old.items asked.new.items }
    ensures marked { spec.IsMarked asked.new.items name }
{
    if let Some(name) = name {
        if (name as usize) < asked.len() {
            asked[name as usize] = true;
        }
    }
}

// Marks the names that arguments are.
fn mark_all(asked: &mut Vec<bool>, program: &Program, arguments: &[u32])
    ensures kept { spec.Grows asked.old.items asked.new.items }
    ensures marked { spec.AreMarked program.now asked.new.items arguments.now }
{
    for argument in arguments {
        mark(asked, named(program, *argument));
    }
}

/// The table of the names whose reads are asked for.
pub fn asked_names(alloc: Global, program: &Program) -> Result<Vec<bool>, Memory>
    ensures { IfOk result (λ asked. Asks (roles_of program.now) (spec.is_asked asked.items)) }
{
    let nodes = program.arena().count()?;
    let mut asked = vec![in alloc; false; nodes as usize]?;
    for n in 0..nodes {
        mark_all(&mut asked, program, arguments(program, n));
        mark(&mut asked, returned(program, n));
    }
    Ok(asked)
}

/// Makes a place for what an occurrence reads in an activation, if that is asked for. No answer changes.
pub fn make_read_place(
    asked: &[bool],
    activations: &mut Activations,
    act: u64,
    occ: u32,
) -> Result<(), Memory>
    ensures same { SameAnswers (answers_of activations.old) (answers_of activations.new) }
    ensures room { OnOk result (spec.HasRoom asked.now activations.new act occ) }
{
    if is_asked(asked, occ) {
        activations.make_read_place(act, occ)
    } else {
        Ok(())
    }
}

/// Keeps what an occurrence that has a place in an activation has read, if that is asked for.
pub fn set_read(
    asked: &[bool],
    activations: &mut Activations,
    act: u64,
    occ: u32,
    definition: Option<u32>,
)
    requires { spec.HasRoom asked.now activations.old act occ }
    ensures { spec.Reads asked.now act occ definition (answers_of activations.old) (answers_of activations.new) }
{
    if is_asked(asked, occ) {
        activations.set_read(act, occ, definition);
    }
}
