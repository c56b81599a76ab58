// The coupling that an event gives.
ghost use Rattle.std.specs.Prelude.{◌≡◌};
ghost use Rattle.cc_record_laws.specs.Kept.{shared_now, return_now};
ghost use Rattle.cc_record.specs.Roles.{roles_of};
ghost use Rattle.cc_record.specs.Steps as spec;

use cc_meaning::{Cell, Coupling};
use cc_program::{FuncId, Program};
use cc_record_laws::{Entry, Passed};
use cc_record_tables::Slot;
use cc_roles::{component, home, is_used};

/// The call coupling of an entry.
pub fn call(program: &Program, site: Option<u32>, callee: FuncId) -> Option<Coupling>
    ensures { result ≡ spec.call (roles_of program.now) site callee }
{
    match site {
        Some(site) if component(program, site) != home(program, callee) => {
            Some(Coupling::Call { site, callee })
        }
        _ => None,
    }
}

// The shared coupling of a read.
fn shared(program: &Program, reader: u32, object: u32, due: Option<u32>) -> Option<Coupling>
    ensures { result ≡ shared_now (roles_of program.now) reader object due }
{
    match due {
        Some(definition) if component(program, definition) != component(program, reader) => {
            Some(Coupling::Shared {
                definition,
                reader,
                object,
            })
        }
        _ => None,
    }
}

// The parameter coupling of a read of a formal that nothing has touched since it was passed.
fn parameter(program: &Program, reader: u32, passed: Passed) -> Option<Coupling>
    ensures { result ≡ spec.parameter (roles_of program.now) reader passed }
{
    let entry = passed.entry?;
    let definition = passed.definition?;
    if entry.site != passed.site {
        return None;
    }
    if component(program, passed.site) == home(program, entry.callee) {
        return None;
    }
    Some(Coupling::Parameter {
        definition,
        site: passed.site,
        k: passed.k,
        callee: entry.callee,
        reader,
    })
}

/// The coupling of a read of a cell of which this is kept.
pub fn read(program: &Program, reader: u32, cell: Cell, slot: Option<Slot>) -> Option<Coupling>
    ensures { result ≡ spec.read (roles_of program.now) reader cell slot }
{
    let slot = slot?;
    match slot.fresh() {
        Some(passed) => parameter(program, reader, passed),
        None => shared(
            program,
            reader,
            cell.object,
            slot.due(component(program, reader)),
        ),
    }
}

/// The return coupling of an activation that was entered so and gives what the definition gives.
pub fn leave(program: &Program, definition: Option<u32>, entry: Option<Entry>) -> Option<Coupling>
    ensures { result ≡ return_now (roles_of program.now) definition entry }
{
    let entry = entry?;
    if component(program, entry.site) == home(program, entry.callee) {
        return None;
    }
    match definition {
        Some(definition) if is_used(program, entry.site) => Some(Coupling::Return {
            definition,
            site: entry.site,
            callee: entry.callee,
        }),
        _ => None,
    }
}
