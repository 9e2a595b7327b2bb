ghost use Rattle.std.specs.Prelude.{◌≡◌};
ghost use Rattle.farm_nodes_restart_seat.specs.Refusals.{restart_fault, number_of};

use acceptor_log_form::LogError;

/// Why a node can't come back over a disk. `number` is what a user is shown.
#[derive(Clone, Copy, Debug, PartialEq, Eq)]
pub enum RestartFault {
    /// A growth of memory was refused.
    NoMemory,
    /// The journal can't be opened.
    Journal(LogError),
    /// Its records leave other kept parts than the node's.
    OtherRecords,
    /// The node's cell refused its offer again.
    CellRefused,
}

impl RestartFault {
    /// The fault that the journal's answer is.
    pub fn of(error: LogError) -> RestartFault
        ensures { result ≡ restart_fault error }
    {
        match error {
            LogError::NoMemory => RestartFault::NoMemory,
            other => RestartFault::Journal(other),
        }
    }

    /// The number that a user is shown.
    pub fn number(self) -> u16
        ensures { result ≡ number_of self }
    {
        match self {
            RestartFault::NoMemory => 1,
            RestartFault::Journal(error) => error.number(),
            RestartFault::OtherRecords => 521,
            RestartFault::CellRefused => 522,
        }
    }
}
