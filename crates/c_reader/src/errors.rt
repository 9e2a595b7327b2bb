ghost use Rattle.std.specs.Prelude.{◌≡◌};
ghost use Rattle.c_reader.specs.Numbers.{number_of_read_error, offset_of_read_error};

use std::alloc::AllocFailed;
use thiserror::Error;

/// Why tokens are not read.
#[derive(Clone, Copy, Debug, PartialEq, Eq, Error)]
pub enum ReadError {
    /// A growth of memory was refused.
    #[error("NoMemory")]
    NoMemory,
    /// The tokens spell no text. The byte offset of the first token that does not fit, or where the last
    /// token ends.
    #[error("Syntax")]
    Syntax(usize),
    /// A function or an initial expression is higher than 200. The byte offset of its first token.
    #[error("TooDeep")]
    TooDeep(usize),
}

impl ReadError {
    /// The number that a user is shown.
    pub fn number(self) -> u16
        ensures { result ≡ number_of_read_error self }
    {
        match self {
            ReadError::NoMemory => 1,
            ReadError::Syntax(_) => 210,
            ReadError::TooDeep(_) => 211,
        }
    }

    /// The byte offset that it is about.
    pub fn offset(self) -> Option<usize>
        ensures { result ≡ offset_of_read_error self }
    {
        match self {
            ReadError::NoMemory => None,
            ReadError::Syntax(at) | ReadError::TooDeep(at) => Some(at),
        }
    }
}

impl<T: Drop> From<AllocFailed<T>> for ReadError {
    ghost use Rattle.std.specs.Prelude.{◌≡◌};
    ghost use Rattle.c_reader.specs.declared.errors.ReadError.TheVariants.{NoMemory};

    ghost from_gives = { λ _ e. e ≡ NoMemory };

    fn from(_e: AllocFailed<T>) -> ReadError {
        ReadError::NoMemory
    }
}
