ghost use Rattle.std.specs.Prelude.{◌≡◌};
ghost use Rattle.cfarm_log.specs.Faults.{log_status, refusal_name};

use acceptor_log_form::LogError;
use std::fmt;

/// Why a journal is not listed to its end. Its text is the line that a user is shown.
#[derive(Clone, Copy, Debug, PartialEq, Eq)]
pub enum ListingError {
    NoMemory,
    /// The first fault of the bytes, and the byte where it is, counted from 0: of a record that of its gate.
    Journal(LogError, u64),
    /// The writer failed; it may hold a beginning of the listing.
    Write,
}

impl ListingError {
    /// The exit status of the program.
    pub fn status(self) -> u8
        ensures { result ≡ log_status self }
    {
        match self {
            ListingError::NoMemory => 7,
            ListingError::Journal(_, _) => 4,
            ListingError::Write => 4,
        }
    }
}

fn name_of(fault: LogError) -> &'static str
    ensures { result.now ≡ refusal_name fault }
{
    match fault {
        LogError::NoMemory => "NoMemory",
        LogError::Device => "Device",
        LogError::NotAJournal => "NotAJournal",
        LogError::BadRecord => "BadRecord",
        LogError::OtherSource => "OtherSource",
        LogError::Stopped => "Stopped",
        LogError::Full => "Full",
    }
}

impl fmt::Display for ListingError {
    ghost use Rattle.std.specs.Prelude.{Some};
    ghost use Rattle.cfarm_log.specs.Faults.{log_line};

    ghost output = { λ fault. Some (log_line fault) };

    fn fmt<W: fmt::Write>(&self, f: &mut fmt::Formatter<W>) -> fmt::Result {
        match self {
            ListingError::NoMemory => write!(f, "memory"),
            ListingError::Journal(fault, place) => {
                let number = fault.number();
                let name = name_of(*fault);
                write!(f, "journal {number} {name} at byte {place}")
            }
            ListingError::Write => write!(f, "write 701"),
        }
    }
}

impl std::error::Error for ListingError {}
