// The end of a run.
ghost use Rattle.std.specs.Prelude.{◌≡◌};
ghost use Rattle.cc_scoring.specs.Runs as spec;

use cc_acts::Stop;
use cc_meaning::End;

/// The end of a run that stops so, or is done. Where the machine was lost there is none.
pub fn end_of(stop: Option<Stop>) -> Option<End>
    ensures { result ≡ spec.end_of stop }
{
    match stop {
        None => Some(End::Done),
        Some(Stop::Undefined { at, kind }) => Some(End::Undefined { at, kind }),
        Some(Stop::TurnsOut) => Some(End::TurnsOut),
        Some(Stop::CellsOut) => Some(End::CellsOut),
        Some(Stop::EnvDry { at }) => Some(End::EnvDry { at }),
        Some(Stop::Lost) => None,
    }
}
