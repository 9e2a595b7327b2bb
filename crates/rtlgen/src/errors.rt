ghost use Rattle.std.specs.Prelude.{◌≡◌};
ghost use Rattle.rtlgen.specs.Numbers.{number_of};

use lang_base::NoMemory;
use std::alloc::{AllocError, AllocFailed};
use thiserror::Error;

/// Why a Cminor program has no RTL program.
#[derive(Clone, Copy, Debug, PartialEq, Eq, Error)]
pub enum GenError {
    #[error("NoMemory")]
    NoMemory,
    /// The function of this number needs more than 65,535 nodes.
    #[error("TooManyNodes")]
    TooManyNodes(usize),
}

impl GenError {
    /// The number that a user is shown.
    pub fn number(self) -> u16
        ensures { result ≡ number_of self }
    {
        match self {
            GenError::NoMemory => 1,
            GenError::TooManyNodes(_) => 240,
        }
    }
}

impl From<NoMemory> for GenError {
    ghost use Rattle.std.specs.Prelude.{◌≡◌};
    ghost use Rattle.rtlgen.specs.declared.errors.GenError.TheVariants.{NoMemory};

    ghost from_gives = { λ _ e. e ≡ NoMemory };

    fn from(_e: NoMemory) -> GenError {
        GenError::NoMemory
    }
}

impl From<AllocError> for GenError {
    ghost use Rattle.std.specs.Prelude.{◌≡◌};
    ghost use Rattle.rtlgen.specs.declared.errors.GenError.TheVariants.{NoMemory};

    ghost from_gives = { λ _ e. e ≡ NoMemory };

    fn from(_e: AllocError) -> GenError {
        GenError::NoMemory
    }
}

impl<T: Drop> From<AllocFailed<T>> for GenError {
    ghost use Rattle.std.specs.Prelude.{◌≡◌};
    ghost use Rattle.rtlgen.specs.declared.errors.GenError.TheVariants.{NoMemory};

    ghost from_gives = { λ _ e. e ≡ NoMemory };

    fn from(_e: AllocFailed<T>) -> GenError {
        GenError::NoMemory
    }
}
