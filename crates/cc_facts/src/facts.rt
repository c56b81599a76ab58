// The table of facts.
ghost use Rattle.std.specs.Prelude.{◌+◌, ◌<◌, ◌^◌};
ghost use Rattle.cc_parts.specs.PartTables.{count_of};

use cc_base::List;
use cc_blocks::Rows;
use cc_parts::Parts;

/// The facts of a program. In `rows` stand the targets of the values of all occurrences, then those of all slots, then the
/// parts of all lvalues, by the numbers of the occurrences again; what comes after these is the solver's own. The number of a
/// target is that of the part, or, for a function, comes after those of all parts.
#[derive(Drop)]
pub struct Facts {
    pub rows: Rows,
    pub occurrences: u32,
    pub parts: Parts,
    /// For each occurrence that is a call what it calls.
    pub sites: List<Option<u32>>,
    /// For each function whether it has a body.
    pub defined: List<bool>,
    ghost small: { occurrences + count_of parts.parts < 2 ^ 31 },
}
