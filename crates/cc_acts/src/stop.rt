// Why a run stops.
use cc_meaning::Undef;

/// Why a run stops before its calls are done.
#[derive(Clone, Copy)]
pub enum Stop {
    /// The next step is undefined, at this node.
    Undefined { at: u32, kind: Undef },
    /// A turn was to be taken, and none was left.
    TurnsOut,
    /// An object was to be made, and too many cells would have lived.
    CellsOut,
    /// The call at this node asks the environment for a value, and no answer is left.
    EnvDry { at: u32 },
    /// An act does not find what it reads. So stops no run of acts that a program gives.
    Lost,
}
