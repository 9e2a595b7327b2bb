ghost use Rattle.std.specs.Prelude.{◌≡◌};
ghost use Rattle.c_checker_rules.specs.Numbers.{number_of_check_error, offset_of_check_error};

use c_checker_scopes::NoMemory;
use std::alloc::{AllocError, AllocFailed};
use thiserror::Error;

/// Why a text is not well formed. Each stands at a byte offset.
#[derive(Clone, Copy, Debug, PartialEq, Eq, Error)]
pub enum CheckError {
    /// A growth of memory was refused.
    #[error("NoMemory")]
    NoMemory,
    /// A name is used as a variable or a function and is not declared before as that kind.
    #[error("Undeclared")]
    Undeclared(usize),
    /// A name is declared twice in one scope, or a function again with another type or another body, or
    /// `putchar` with a body or another type than `int putchar(int)`.
    #[error("Redeclared")]
    Redeclared(usize),
    /// A call with another number of arguments than the function has parameters.
    #[error("WrongArity")]
    WrongArity(usize),
    /// A call of a function without value gives a value, a function without value returns one, or
    /// another function returns none.
    #[error("VoidValue")]
    VoidValue(usize),
    /// `main` has no body. It stands where the last token ends.
    #[error("NoMain")]
    NoMain(usize),
    /// `main` is not `int main(void)`.
    #[error("BadMain")]
    BadMain(usize),
    /// What a global begins with has a name in it, or goes wrong.
    #[error("NotConstant")]
    NotConstant(usize),
    /// A function that is called has no body, and is not `putchar`.
    #[error("NoBody")]
    NoBody(usize),
    /// A limit is passed: 64 functions with bodies, 16 parameters, 256 locals with parameters in a function,
    /// 1,024 globals, 65,536 cells of all of them, an array of 1 to 65,536 cells, a name of 255 bytes.
    #[error("Limit")]
    Limit(usize),
    /// `break` or `continue` outside a loop.
    #[error("StrayBreak")]
    StrayBreak(usize),
    /// An array without index, an index on another variable, an array that begins without braces or a
    /// variable with them, or more initial words than cells.
    #[error("ArrayUse")]
    ArrayUse(usize),
}

impl CheckError {
    /// The number that a user is shown.
    pub fn number(self) -> u16
        ensures { result ≡ number_of_check_error self }
    {
        match self {
            CheckError::NoMemory => 1,
            CheckError::Undeclared(_) => 220,
            CheckError::Redeclared(_) => 221,
            CheckError::WrongArity(_) => 222,
            CheckError::VoidValue(_) => 223,
            CheckError::NoMain(_) => 224,
            CheckError::BadMain(_) => 225,
            CheckError::NotConstant(_) => 226,
            CheckError::NoBody(_) => 227,
            CheckError::Limit(_) => 228,
            CheckError::StrayBreak(_) => 229,
            CheckError::ArrayUse(_) => 230,
        }
    }

    /// The byte offset that it is about.
    pub fn offset(self) -> Option<usize>
        ensures { result ≡ offset_of_check_error self }
    {
        match self {
            CheckError::NoMemory => None,
            CheckError::Undeclared(at)
            | CheckError::Redeclared(at)
            | CheckError::WrongArity(at)
            | CheckError::VoidValue(at)
            | CheckError::NoMain(at)
            | CheckError::BadMain(at)
            | CheckError::NotConstant(at)
            | CheckError::NoBody(at)
            | CheckError::Limit(at)
            | CheckError::StrayBreak(at)
            | CheckError::ArrayUse(at) => Some(at),
        }
    }
}

impl From<NoMemory> for CheckError {
    ghost use Rattle.std.specs.Prelude.{◌≡◌};
    ghost use Rattle.c_checker_rules.specs.declared.errors.CheckError.TheVariants.{NoMemory};

    ghost from_gives = { λ _ e. e ≡ NoMemory };

    fn from(_e: NoMemory) -> CheckError {
        CheckError::NoMemory
    }
}

impl From<AllocError> for CheckError {
    ghost use Rattle.std.specs.Prelude.{◌≡◌};
    ghost use Rattle.c_checker_rules.specs.declared.errors.CheckError.TheVariants.{NoMemory};

    ghost from_gives = { λ _ e. e ≡ NoMemory };

    fn from(_e: AllocError) -> CheckError {
        CheckError::NoMemory
    }
}

impl<T: Drop> From<AllocFailed<T>> for CheckError {
    ghost use Rattle.std.specs.Prelude.{◌≡◌};
    ghost use Rattle.c_checker_rules.specs.declared.errors.CheckError.TheVariants.{NoMemory};

    ghost from_gives = { λ _ e. e ≡ NoMemory };

    fn from(_e: AllocFailed<T>) -> CheckError {
        CheckError::NoMemory
    }
}
