ghost use Rattle.std.specs.Prelude.{◌≡◌};
ghost use Rattle.c_lexer.specs.Refusals.{number_of, offset_of};

use lang_base::NoMemory;
use std::alloc::{AllocError, AllocFailed};
use thiserror::Error;

/// Why a text has no tokens: its first fault, with the offset of the byte where it begins.
#[derive(Clone, Copy, Debug, PartialEq, Eq, Error)]
pub enum LexError {
    #[error("NoMemory")]
    NoMemory,
    /// A byte that begins no token, comment or white space.
    #[error("BadByte")]
    BadByte(usize),
    /// A comment that is not closed.
    #[error("OpenComment")]
    OpenComment(usize),
    /// A constant that fits no type, or a word that begins with a digit and is no constant.
    #[error("LiteralRange")]
    LiteralRange(usize),
    /// A quote that begins no character constant.
    #[error("BadChar")]
    BadChar(usize),
}

impl LexError {
    /// The number that a user is shown.
    pub fn number(self) -> u16
        ensures { result ≡ number_of self }
    {
        match self {
            LexError::NoMemory => NoMemory::NUMBER,
            LexError::BadByte(_) => 201,
            LexError::OpenComment(_) => 202,
            LexError::LiteralRange(_) => 203,
            LexError::BadChar(_) => 204,
        }
    }

    /// Where the fault begins in the text.
    pub fn offset(self) -> Option<usize>
        ensures { result ≡ offset_of self }
    {
        match self {
            LexError::NoMemory => None,
            LexError::BadByte(at)
            | LexError::OpenComment(at)
            | LexError::LiteralRange(at)
            | LexError::BadChar(at) => Some(at),
        }
    }
}

impl From<NoMemory> for LexError {
    ghost use Rattle.std.specs.Prelude.{◌≡◌};
    ghost use Rattle.c_lexer.specs.declared.errors.LexError.TheVariants.{NoMemory};

    ghost from_gives = { λ _ e. e ≡ NoMemory };

    fn from(_e: NoMemory) -> LexError {
        LexError::NoMemory
    }
}

impl From<AllocError> for LexError {
    ghost use Rattle.std.specs.Prelude.{◌≡◌};
    ghost use Rattle.c_lexer.specs.declared.errors.LexError.TheVariants.{NoMemory};

    ghost from_gives = { λ _ e. e ≡ NoMemory };

    fn from(_e: AllocError) -> LexError {
        LexError::NoMemory
    }
}

impl<T: Drop> From<AllocFailed<T>> for LexError {
    ghost use Rattle.std.specs.Prelude.{◌≡◌};
    ghost use Rattle.c_lexer.specs.declared.errors.LexError.TheVariants.{NoMemory};

    ghost from_gives = { λ _ e. e ≡ NoMemory };

    fn from(_e: AllocFailed<T>) -> LexError {
        LexError::NoMemory
    }
}
