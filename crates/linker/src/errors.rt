ghost use Rattle.std.specs.Prelude.{◌≡◌};
ghost use Rattle.linker.specs.Numbers.{number_of_link_error, function_of_link_error};

use lang_base::NoMemory;
use std::alloc::{AllocError, AllocFailed};
use thiserror::Error;

/// Why a program is not linked. A function is told by its number, the first one's being 0.
#[derive(Clone, Copy, Debug, PartialEq, Eq, Error)]
pub enum LinkError {
    /// A growth of memory was refused.
    #[error("NoMemory")]
    NoMemory,
    /// The function needs more than 65,535 nodes, so that it has no RTL with which a chain begins. Only the linking of C
    /// programs tells so.
    #[error("TooManyNodes")]
    TooManyNodes(usize),
    /// The function has no offers.
    #[error("Missing")]
    Missing(usize),
    /// An offer of the function goes on from another input than the output of the offer before it, or the
    /// first from another one than the function.
    #[error("Unchained")]
    Unchained(usize),
    /// The names beside the offers are not those of the program's functions, in order.
    #[error("Names")]
    Names,
}

impl LinkError {
    /// The number that a user is shown.
    pub fn number(self) -> u16
        ensures { result ≡ number_of_link_error self }
    {
        match self {
            LinkError::NoMemory => 1,
            LinkError::TooManyNodes(_) => 240,
            LinkError::Missing(_) => 601,
            LinkError::Unchained(_) => 602,
            LinkError::Names => 603,
        }
    }

    /// The number of the function that it is about.
    pub fn function(self) -> Option<usize>
        ensures { result ≡ function_of_link_error self }
    {
        match self {
            LinkError::NoMemory | LinkError::Names => None,
            LinkError::TooManyNodes(function)
            | LinkError::Missing(function)
            | LinkError::Unchained(function) => Some(function),
        }
    }
}

impl From<NoMemory> for LinkError {
    ghost use Rattle.std.specs.Prelude.{◌≡◌};
    ghost use Rattle.linker.specs.declared.errors.LinkError.TheVariants.{NoMemory};

    ghost from_gives = { λ _ e. e ≡ NoMemory };

    fn from(_e: NoMemory) -> LinkError {
        LinkError::NoMemory
    }
}

impl From<AllocError> for LinkError {
    ghost use Rattle.std.specs.Prelude.{◌≡◌};
    ghost use Rattle.linker.specs.declared.errors.LinkError.TheVariants.{NoMemory};

    ghost from_gives = { λ _ e. e ≡ NoMemory };

    fn from(_e: AllocError) -> LinkError {
        LinkError::NoMemory
    }
}

impl<T: Drop> From<AllocFailed<T>> for LinkError {
    ghost use Rattle.std.specs.Prelude.{◌≡◌};
    ghost use Rattle.linker.specs.declared.errors.LinkError.TheVariants.{NoMemory};

    ghost from_gives = { λ _ e. e ≡ NoMemory };

    fn from(_e: AllocFailed<T>) -> LinkError {
        LinkError::NoMemory
    }
}
