ghost use Rattle.std.specs.Prelude.{◌≡◌};
ghost use Rattle.lang_helpers.specs.Numbers.{number_of};

use lang_base::NoMemory;
use std::alloc::{AllocError, AllocFailed};
use thiserror::Error;

/// Why a run was broken off. A beginning of its output was written.
#[derive(Clone, Copy, Debug, PartialEq, Eq, Error)]
pub enum RunError {
    #[error("NoMemory")]
    NoMemory,
    /// The writer failed.
    #[error("Write")]
    Write,
}

impl RunError {
    /// The number that a user is shown.
    pub fn number(self) -> u16
        ensures { result ≡ number_of self }
    {
        match self {
            RunError::NoMemory => 1,
            RunError::Write => 701,
        }
    }
}

impl From<NoMemory> for RunError {
    ghost use Rattle.std.specs.Prelude.{◌≡◌};
    ghost use Rattle.lang_helpers.specs.declared.error.RunError.TheVariants.{NoMemory};

    ghost from_gives = { λ _ e. e ≡ NoMemory };

    fn from(_e: NoMemory) -> RunError {
        RunError::NoMemory
    }
}

impl From<AllocError> for RunError {
    ghost use Rattle.std.specs.Prelude.{◌≡◌};
    ghost use Rattle.lang_helpers.specs.declared.error.RunError.TheVariants.{NoMemory};

    ghost from_gives = { λ _ e. e ≡ NoMemory };

    fn from(_e: AllocError) -> RunError {
        RunError::NoMemory
    }
}

impl<T: Drop> From<AllocFailed<T>> for RunError {
    ghost use Rattle.std.specs.Prelude.{◌≡◌};
    ghost use Rattle.lang_helpers.specs.declared.error.RunError.TheVariants.{NoMemory};

    ghost from_gives = { λ _ e. e ≡ NoMemory };

    fn from(_e: AllocFailed<T>) -> RunError {
        RunError::NoMemory
    }
}
