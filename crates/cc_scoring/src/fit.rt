// Whether what is watched is as a recorder needs it.
ghost use Rattle.std.specs.Prelude.{◌≡◌};
ghost use Rattle.cc_scoring.specs.Fit as spec;

use cc_program::Program;

/// Whether each file is of one of the first 64 components.
pub fn are_few(program: &Program) -> bool
    ensures { result ≡ spec.are_few program.now.files }
{
    for file in program.files.as_slice() {
        if file.component.0 >= 64 {
            return false;
        }
    }
    true
}
