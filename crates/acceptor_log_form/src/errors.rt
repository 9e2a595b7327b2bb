//! Why a journal cannot be read or written. `number` is what a user is shown beside the name.

ghost use Rattle.std.specs.Prelude.{◌≡◌};
ghost use Rattle.acceptor_log_form.specs.Refusals.{number_of};

use lang_base::NoMemory;
use std::alloc::{AllocError, AllocFailed};
use thiserror::Error;

/// Why a journal cannot be read or written.
#[derive(Clone, Copy, Debug, PartialEq, Eq, Error)]
pub enum LogError {
    /// A growth of memory was refused.
    #[error("NoMemory")]
    NoMemory,
    /// The device failed in this call.
    #[error("Device")]
    Device,
    /// The bytes are too few for a journal, or begin with others than it does; of one to be migrated, see
    /// `acceptor_log_old`.
    #[error("NotAJournal")]
    NotAJournal,
    /// Behind an open gate, a body that is cut or is no record, or no gate behind it.
    #[error("BadRecord")]
    BadRecord,
    /// Another number of nodes, another size of a quorum, another node or another source's digest.
    #[error("OtherSource")]
    OtherSource,
    /// The device failed before; open the journal again.
    #[error("Stopped")]
    Stopped,
    /// The file would pass 4,294,967,295 bytes.
    #[error("Full")]
    Full,
}

impl LogError {
    /// The number that a user is shown.
    pub fn number(self) -> u16
        ensures { result ≡ number_of self }
    {
        match self {
            LogError::NoMemory => 1,
            LogError::Device => 401,
            LogError::NotAJournal => 402,
            LogError::BadRecord => 403,
            LogError::OtherSource => 404,
            LogError::Stopped => 405,
            LogError::Full => 406,
        }
    }
}

impl From<NoMemory> for LogError {
    ghost use Rattle.std.specs.Prelude.{◌≡◌};
    ghost use Rattle.acceptor_log_form.specs.declared.errors.LogError.TheVariants.{NoMemory};

    ghost from_gives = { λ _ e. e ≡ NoMemory };

    fn from(_e: NoMemory) -> LogError {
        LogError::NoMemory
    }
}

impl From<AllocError> for LogError {
    ghost use Rattle.std.specs.Prelude.{◌≡◌};
    ghost use Rattle.acceptor_log_form.specs.declared.errors.LogError.TheVariants.{NoMemory};

    ghost from_gives = { λ _ e. e ≡ NoMemory };

    fn from(_e: AllocError) -> LogError {
        LogError::NoMemory
    }
}

impl<T: Drop> From<AllocFailed<T>> for LogError {
    ghost use Rattle.std.specs.Prelude.{◌≡◌};
    ghost use Rattle.acceptor_log_form.specs.declared.errors.LogError.TheVariants.{NoMemory};

    ghost from_gives = { λ _ e. e ≡ NoMemory };

    fn from(_e: AllocFailed<T>) -> LogError {
        LogError::NoMemory
    }
}
