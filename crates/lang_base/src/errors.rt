//! The refusals that languages and passes share. `number` is what a user is shown beside the name.

ghost use Rattle.std.specs.Prelude.{◌≡◌};
ghost use Rattle.lang_base.specs.Numbers.{number_of_form_error, number_of_pass_error};

use std::alloc::{AllocError, AllocFailed};
use thiserror::Error;

/// A growth of memory was refused. Answered only where one really was.
#[derive(Clone, Copy, Debug, PartialEq, Eq, Error)]
#[error("NoMemory")]
pub struct NoMemory;

impl NoMemory {
    /// The number of this refusal.
    pub const NUMBER: u16 = 1;
}

impl From<AllocError> for NoMemory {
    fn from(_e: AllocError) -> NoMemory {
        NoMemory
    }
}

impl<T: Drop> From<AllocFailed<T>> for NoMemory {
    fn from(_e: AllocFailed<T>) -> NoMemory {
        NoMemory
    }
}

/// Why bytes are no front of a spelling: the first fault in the order of the bytes.
#[derive(Clone, Copy, Debug, PartialEq, Eq, Error)]
pub enum FormError {
    #[error("NoMemory")]
    NoMemory,
    /// The bytes end within the form.
    #[error("Short")]
    Short,
    /// The first byte is not the language's tag, or not the pass's number.
    #[error("BadTag")]
    BadTag,
    /// A part that no value is spelled with, or bytes behind the form.
    #[error("NotCanonical")]
    NotCanonical,
    /// A count over its limit.
    #[error("TooLarge")]
    TooLarge,
}

impl FormError {
    /// The number that a user is shown.
    pub fn number(self) -> u16
        ensures { result ≡ number_of_form_error self }
    {
        match self {
            FormError::NoMemory => 1,
            FormError::Short => 101,
            FormError::BadTag => 102,
            FormError::NotCanonical => 103,
            FormError::TooLarge => 104,
        }
    }
}

impl From<NoMemory> for FormError {
    ghost use Rattle.std.specs.Prelude.{◌≡◌};
    ghost use Rattle.lang_base.specs.declared.errors.FormError.TheVariants.{NoMemory};

    ghost from_gives = { λ _ e. e ≡ NoMemory };

    fn from(_e: NoMemory) -> FormError {
        FormError::NoMemory
    }
}

impl From<AllocError> for FormError {
    ghost use Rattle.std.specs.Prelude.{◌≡◌};
    ghost use Rattle.lang_base.specs.declared.errors.FormError.TheVariants.{NoMemory};

    ghost from_gives = { λ _ e. e ≡ NoMemory };

    fn from(_e: AllocError) -> FormError {
        FormError::NoMemory
    }
}

impl<T: Drop> From<AllocFailed<T>> for FormError {
    ghost use Rattle.std.specs.Prelude.{◌≡◌};
    ghost use Rattle.lang_base.specs.declared.errors.FormError.TheVariants.{NoMemory};

    ghost from_gives = { λ _ e. e ≡ NoMemory };

    fn from(_e: AllocFailed<T>) -> FormError {
        FormError::NoMemory
    }
}

/// Why a pass has no baseline for a function.
#[derive(Clone, Copy, Debug, PartialEq, Eq, Error)]
pub enum PassError {
    #[error("NoMemory")]
    NoMemory,
    /// The function has more pseudo-registers than slots can stand for.
    #[error("TooManyRegisters")]
    TooManyRegisters,
}

impl PassError {
    /// The number that a user is shown.
    pub fn number(self) -> u16
        ensures { result ≡ number_of_pass_error self }
    {
        match self {
            PassError::NoMemory => 1,
            PassError::TooManyRegisters => 110,
        }
    }
}

impl From<NoMemory> for PassError {
    ghost use Rattle.std.specs.Prelude.{◌≡◌};
    ghost use Rattle.lang_base.specs.declared.errors.PassError.TheVariants.{NoMemory};

    ghost from_gives = { λ _ e. e ≡ NoMemory };

    fn from(_e: NoMemory) -> PassError {
        PassError::NoMemory
    }
}

impl From<AllocError> for PassError {
    ghost use Rattle.std.specs.Prelude.{◌≡◌};
    ghost use Rattle.lang_base.specs.declared.errors.PassError.TheVariants.{NoMemory};

    ghost from_gives = { λ _ e. e ≡ NoMemory };

    fn from(_e: AllocError) -> PassError {
        PassError::NoMemory
    }
}

impl<T: Drop> From<AllocFailed<T>> for PassError {
    ghost use Rattle.std.specs.Prelude.{◌≡◌};
    ghost use Rattle.lang_base.specs.declared.errors.PassError.TheVariants.{NoMemory};

    ghost from_gives = { λ _ e. e ≡ NoMemory };

    fn from(_e: AllocFailed<T>) -> PassError {
        PassError::NoMemory
    }
}
