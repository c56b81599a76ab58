// Why there is no report.
ghost use Rattle.std.specs.Prelude.{◌≡◌};

use cc_base::Memory as NoMemory;
use cc_listing::ListFault;
use cc_score::Conflict;
use cc_scoring::ScoreFault;
use cc_tables::JustifyFault;
use std::alloc::AllocError;

/// Why there is no report.
#[derive(Clone, Copy, Debug, PartialEq, Eq)]
pub enum ReportFault {
    /// The program has no listing.
    List(ListFault),
    /// The line of this justification, counted from 0, is no row's text. It is the first such one. No test is run then.
    NoSuchRow { index: u32 },
    /// A test exercises a row that is justified: of these the one whose justification is the least, and of such rows the least.
    Covered(Conflict),
    /// The machine is lost in the run of a test: that this can't come is not proved.
    Lost,
    /// Runs can't be watched, as a component is past the first 64, or a function begins without its entry: that this can't come
    /// is not proved.
    Unfit,
    /// Memory was wanting. No clause says when.
    Memory,
}

impl From<NoMemory> for ReportFault {
    ghost use Rattle.std.specs.Prelude.{◌≡◌};
    ghost use Rattle.cc_reports.specs.declared.fault.ReportFault.TheVariants.{Memory};

    ghost from_gives = { λ _ fault. fault ≡ Memory };

    fn from(_: NoMemory) -> ReportFault {
        ReportFault::Memory
    }
}

impl From<AllocError> for ReportFault {
    ghost use Rattle.std.specs.Prelude.{◌≡◌};
    ghost use Rattle.cc_reports.specs.declared.fault.ReportFault.TheVariants.{Memory};

    ghost from_gives = { λ _ fault. fault ≡ Memory };

    fn from(_: AllocError) -> ReportFault {
        ReportFault::Memory
    }
}

impl From<ListFault> for ReportFault {
    ghost use Rattle.std.specs.Prelude.{◌≡◌};
    ghost use Rattle.cc_reports.specs.Faults.{of_list};

    ghost from_gives = { λ list fault. fault ≡ of_list list };

    fn from(fault: ListFault) -> ReportFault {
        match fault {
            ListFault::Memory => ReportFault::Memory,
            fault => ReportFault::List(fault),
        }
    }
}

impl From<JustifyFault> for ReportFault {
    ghost use Rattle.std.specs.Prelude.{◌≡◌};
    ghost use Rattle.cc_reports.specs.Faults.{of_justify};

    ghost from_gives = { λ justify fault. fault ≡ of_justify justify };

    fn from(fault: JustifyFault) -> ReportFault {
        match fault {
            JustifyFault::NoSuchRow { index } => ReportFault::NoSuchRow { index },
            JustifyFault::Memory => ReportFault::Memory,
        }
    }
}

impl From<ScoreFault> for ReportFault {
    ghost use Rattle.std.specs.Prelude.{◌≡◌};
    ghost use Rattle.cc_reports.specs.Faults.{of_score};

    ghost from_gives = { λ score fault. fault ≡ of_score score };

    fn from(fault: ScoreFault) -> ReportFault {
        match fault {
            ScoreFault::Lost => ReportFault::Lost,
            ScoreFault::Unfit => ReportFault::Unfit,
            ScoreFault::Memory => ReportFault::Memory,
        }
    }
}
