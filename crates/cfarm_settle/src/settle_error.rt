ghost use Rattle.std.specs.Prelude.{◌≡◌};
ghost use Rattle.cfarm_settle.specs.SettleStatuses.{status_of};

use cfarm_output::FormLine;
use lang_base::{FormError, NoMemory};
use std::alloc::AllocError;
use std::fmt;

/// Why a function was not settled. Its text is the line that a user is shown.
#[derive(Clone, Copy, Debug, PartialEq, Eq)]
pub enum SettleError {
    NoMemory,
    /// The bytes are not those of one LTL function: the first fault in them.
    Form(FormError),
    /// The nodes have not all learned one value.
    Undecided,
    /// The writer failed; it may hold a beginning of the output.
    Write,
}

impl SettleError {
    /// The exit status of the program.
    pub fn status(self) -> u8
        ensures { result ≡ status_of self }
    {
        match self {
            SettleError::NoMemory => 7,
            SettleError::Form(_) => 1,
            SettleError::Undecided => 3,
            SettleError::Write => 4,
        }
    }
}

impl fmt::Display for SettleError {
    ghost use Rattle.std.specs.Prelude.{Some};
    ghost use Rattle.cfarm_settle.specs.SettleLines.{settle_line};

    ghost output = { λ fault. Some (settle_line fault) };

    fn fmt<W: fmt::Write>(&self, f: &mut fmt::Formatter<W>) -> fmt::Result {
        match self {
            SettleError::NoMemory => write!(f, "memory"),
            SettleError::Form(fault) => {
                let line = FormLine(*fault);
                write!(f, "{line}")
            }
            SettleError::Undecided => write!(f, "undecided"),
            SettleError::Write => write!(f, "write 701"),
        }
    }
}

impl std::error::Error for SettleError {}

impl From<FormError> for SettleError {
    ghost use Rattle.std.specs.Prelude.{◌≡◌};
    ghost use Rattle.cfarm_settle.specs.SettleStatuses.{refusal_of};

    ghost from_gives = { λ fault e. e ≡ refusal_of fault };

    fn from(fault: FormError) -> SettleError {
        match fault {
            FormError::NoMemory => SettleError::NoMemory,
            _ => SettleError::Form(fault),
        }
    }
}

impl From<NoMemory> for SettleError {
    ghost use Rattle.std.specs.Prelude.{◌≡◌};
    ghost use Rattle.cfarm_settle.specs.declared.settle_error.SettleError.TheVariants.{NoMemory};

    ghost from_gives = { λ _ e. e ≡ NoMemory };

    fn from(_e: NoMemory) -> SettleError {
        SettleError::NoMemory
    }
}

impl From<AllocError> for SettleError {
    ghost use Rattle.std.specs.Prelude.{◌≡◌};
    ghost use Rattle.cfarm_settle.specs.declared.settle_error.SettleError.TheVariants.{NoMemory};

    ghost from_gives = { λ _ e. e ≡ NoMemory };

    fn from(_e: AllocError) -> SettleError {
        SettleError::NoMemory
    }
}
