ghost use Rattle.std.specs.Prelude.{◌≡◌, Some, None};
ghost use Rattle.farm_nodes_turn_step.specs.declared.stop.Pending.TheVariants as waiting;
ghost use Rattle.farm_nodes_turn_offer.specs.Halted.{fault_by_journal, number_of};

use acceptor_log_form::{LogError, Record};
use farm_nodes_turn_step::{Pending, Stop};

/// Why a node halted. `number` is what a user is shown.
#[derive(Clone, Copy, Debug, PartialEq, Eq)]
pub enum Fault {
    /// A growth of memory was refused.
    NoMemory,
    /// Its journal refused a record.
    Journal(LogError),
    /// Its input has no baseline: too many registers.
    TooManyRegisters,
    /// Its journal holds other records than what it keeps.
    OtherRecords,
    /// Its cell refused its offer.
    CellRefused,
}

impl Fault {
    /// The fault that the journal's answer is.
    pub fn of(error: LogError) -> Fault
        ensures { result ≡ fault_by_journal error }
    {
        match error {
            LogError::NoMemory => Fault::NoMemory,
            other => Fault::Journal(other),
        }
    }

    /// The number that a user is shown.
    pub fn number(self) -> u16
        ensures { result ≡ number_of self }
    {
        match self {
            Fault::NoMemory => 1,
            Fault::Journal(error) => error.number(),
            Fault::TooManyRegisters => 110,
            Fault::OtherRecords => 521,
            Fault::CellRefused => 522,
        }
    }
}

/// Why a node halted, and what it was about to do, if anything.
#[derive(PartialEq, Eq, Drop)]
pub struct Halt {
    pub fault: Fault,
    pub pending: Option<Pending>,
}

impl Halt {
    /// Nothing was about to be done.
    pub fn idle(fault: Fault) -> Halt
        ensures { result ≡ record { fault = fault; pending = None } }
    {
        Halt {
            fault,
            pending: None,
        }
    }

    /// The node was about to offer what this record is of.
    pub fn offering(fault: Fault, entry: Record) -> Halt
        ensures { result ≡ record { fault = fault; pending = Some (waiting.Offer entry) } }
    {
        Halt {
            fault,
            pending: Some(Pending::Offer(entry)),
        }
    }

    /// The node was stopped.
    pub fn stopped(stop: Stop) -> Halt
        ensures { result ≡ record { fault = fault_by_journal stop.error; pending = Some stop.pending } }
    {
        let Stop { error, pending } = stop;
        Halt {
            fault: Fault::of(error),
            pending: Some(pending),
        }
    }
}
