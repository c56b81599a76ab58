// Why a program has no listing.
ghost use Rattle.std.specs.Prelude.{◌≡◌};
ghost use Rattle.cc_listing.specs.Faults as spec;

use cc_base::Memory;
use cc_graph::GraphFault;
use cc_points::PointsFault;
use cc_rows::Stop;
use std::alloc::{AllocError, AllocFailed};

/// Why a program has no listing.
#[derive(Clone, Copy, Debug, PartialEq, Eq)]
pub enum ListFault {
    /// It has more control points than there may be: this many.
    TooManyPoints { count: u64 },
    /// It has more points-to facts than there may be.
    TooManyFacts,
    /// It has more rows than there may be.
    TooManyRows,
    /// A number names nothing of the program: that this can't come is not proved.
    Internal,
    /// Memory was wanting. No clause says when.
    Memory,
}

impl From<Memory> for ListFault {
    ghost use Rattle.std.specs.Prelude.{◌≡◌};
    ghost use Rattle.cc_listing.specs.declared.fault.ListFault.TheVariants.{Memory};

    ghost from_gives = { λ _ fault. fault ≡ Memory };

    fn from(_: Memory) -> ListFault {
        ListFault::Memory
    }
}

impl From<AllocError> for ListFault {
    ghost use Rattle.std.specs.Prelude.{◌≡◌};
    ghost use Rattle.cc_listing.specs.declared.fault.ListFault.TheVariants.{Memory};

    ghost from_gives = { λ _ fault. fault ≡ Memory };

    fn from(_: AllocError) -> ListFault {
        ListFault::Memory
    }
}

impl<T: Drop> From<AllocFailed<T>> for ListFault {
    ghost use Rattle.std.specs.Prelude.{◌≡◌};
    ghost use Rattle.cc_listing.specs.declared.fault.ListFault.TheVariants.{Memory};

    ghost from_gives = { λ _ fault. fault ≡ Memory };

    fn from(_: AllocFailed<T>) -> ListFault {
        ListFault::Memory
    }
}

/// Why there are no rows, as a fault of the listing.
pub(crate) fn of_stop(stop: Stop) -> ListFault
    ensures { result ≡ spec.of_stop stop }
{
    match stop {
        Stop::Memory => ListFault::Memory,
        Stop::TooMany => ListFault::TooManyRows,
    }
}

/// Why there are no control points, as a fault of the listing.
pub(crate) fn of_graph(fault: GraphFault) -> ListFault
    ensures { result ≡ spec.of_graph fault }
{
    match fault {
        GraphFault::TooManyPoints { count } => ListFault::TooManyPoints { count },
        GraphFault::Memory => ListFault::Memory,
    }
}

/// Why there are no facts, as a fault of the listing.
pub(crate) fn of_points(fault: PointsFault) -> ListFault
    ensures { result ≡ spec.of_points fault }
{
    match fault {
        PointsFault::TooManyFacts => ListFault::TooManyFacts,
        PointsFault::Memory => ListFault::Memory,
    }
}
