// Why files make no program.
ghost use Rattle.std.specs.Prelude.{◌≡◌};
ghost use Rattle.cc_link.specs.declared.fault.LinkFault.TheVariants.{Memory};

use cc_base::{Memory as NoMemory, Place};
use cc_link_rules::Names;

/// Why files make no program.
#[derive(Clone, Copy, Debug, PartialEq, Eq)]
pub enum LinkFault {
    /// The first broken rule of K1 to K5, K9 and K10: by place, file by file in the order of the project, and there by rule.
    Offence { place: Place, rule: u8 },
    /// Where none of those is broken: the first name of the entries, then of the environment, that breaks one of K6 to K8,
    /// by its index, and the least such rule.
    Name { list: Names, index: u32, rule: u8 },
    /// Memory was wanting.
    Memory,
}

impl From<NoMemory> for LinkFault {
    ghost from_gives = { λ _ e. e ≡ Memory };

    fn from(_: NoMemory) -> LinkFault {
        LinkFault::Memory
    }
}
