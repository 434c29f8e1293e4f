// Why a life of a server has no report.
use lw_types::Refusal;
use thiserror::Error;

/// Why a life has no report.
#[derive(Debug, Drop, Error)]
pub enum ServeFault {
    /// A link couldn't be accepted, a thousand times in a row. Or, if links come and go, the system
    /// gave no second handle of the listener.
    #[error("listen")]
    Listen,
    /// The store refused, or memory ran out.
    #[error("refused {number}", number = .0.number())]
    Refused(Refusal),
    /// The list of the names that may greet wasn't taken.
    #[error("{0}")]
    Names(NameListFault),
}

/// Why a list of the names that may greet isn't taken.
#[derive(Clone, Copy, Debug, PartialEq, Eq, Error)]
pub enum NameListFault {
    /// The list can't be read.
    #[error("names file")]
    File,
    /// This line, from 1, is no name.
    #[error("names line {0}")]
    Line(u64),
    /// More than 64 gateways are listed.
    #[error("names gateways")]
    Gateways,
    /// As many names are listed as there are places, or more.
    #[error("names places")]
    Places,
    /// Memory ran out.
    #[error("refused 30")]
    OutOfMemory,
}
