ghost use Rattle.std.specs.Prelude.{◌≡◌};
ghost use Rattle.cfarm_run.specs.ExecStatuses.{status_of};

use cfarm_output::FormLine;
use lang_base::FormError;
use lang_helpers::RunError;
use std::fmt;

/// Why a linked program was not run to its bound. Its text is the line that a user is shown.
#[derive(Clone, Copy, Debug, PartialEq, Eq)]
pub enum ExecError {
    /// The bytes are not those of one program of Linear, or there was no memory to read them.
    Form(FormError),
    /// The run was broken off; a beginning of the output was written.
    Run(RunError),
}

impl ExecError {
    /// The exit status of the program.
    pub fn status(self) -> u8
        ensures { result ≡ status_of self }
    {
        match self {
            ExecError::Form(FormError::NoMemory) | ExecError::Run(RunError::NoMemory) => 7,
            ExecError::Form(_) => 1,
            ExecError::Run(RunError::Write) => 4,
        }
    }
}

impl fmt::Display for ExecError {
    ghost use Rattle.std.specs.Prelude.{Some};
    ghost use Rattle.cfarm_run.specs.ExecLines.{exec_line};

    ghost output = { λ fault. Some (exec_line fault) };

    fn fmt<W: fmt::Write>(&self, f: &mut fmt::Formatter<W>) -> fmt::Result {
        match self {
            ExecError::Form(FormError::NoMemory) | ExecError::Run(RunError::NoMemory) => {
                write!(f, "memory")
            }
            ExecError::Form(fault) => {
                let line = FormLine(*fault);
                write!(f, "{line}")
            }
            ExecError::Run(RunError::Write) => write!(f, "write 701"),
        }
    }
}

impl std::error::Error for ExecError {}

impl From<FormError> for ExecError {
    ghost use Rattle.std.specs.Prelude.{◌≡◌};
    ghost use Rattle.cfarm_run.specs.declared.exec_error.ExecError.TheVariants.{Form};

    ghost from_gives = { λ fault e. e ≡ Form fault };

    fn from(fault: FormError) -> ExecError {
        ExecError::Form(fault)
    }
}

impl From<RunError> for ExecError {
    ghost use Rattle.std.specs.Prelude.{◌≡◌};
    ghost use Rattle.cfarm_run.specs.declared.exec_error.ExecError.TheVariants.{Run};

    ghost from_gives = { λ fault e. e ≡ Run fault };

    fn from(fault: RunError) -> ExecError {
        ExecError::Run(fault)
    }
}
