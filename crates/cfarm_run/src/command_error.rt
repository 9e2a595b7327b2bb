ghost use Rattle.std.specs.Prelude.{◌≡◌};
ghost use Rattle.cfarm_run.specs.TextStatuses.{status_of_error};

use c_texts::TextError;
use lang_helpers::RunError;
use std::fmt;

/// Why a command over a text was not done. Its text is the line that a user is shown.
#[derive(Clone, Copy, Debug, PartialEq, Eq)]
pub enum CommandError {
    /// The text is refused, or there was no memory to read it.
    Text(TextError),
    /// The run or the printing was broken off; a beginning of the output was written.
    Run(RunError),
}

impl CommandError {
    /// The exit status of the program.
    pub fn status(self) -> u8
        ensures { result ≡ status_of_error self }
    {
        match self {
            CommandError::Text(fault) => { if fault.number() == 1 { 7 } else { 1 } }
            CommandError::Run(RunError::NoMemory) => 7,
            CommandError::Run(RunError::Write) => 4,
        }
    }
}

impl fmt::Display for CommandError {
    ghost use Rattle.std.specs.Prelude.{Some};
    ghost use Rattle.cfarm_run.specs.TextLines.{error_line};

    ghost output = { λ fault. Some (error_line fault) };

    fn fmt<W: fmt::Write>(&self, f: &mut fmt::Formatter<W>) -> fmt::Result {
        match self {
            CommandError::Text(fault) => write!(f, "{fault}"),
            CommandError::Run(RunError::NoMemory) => write!(f, "memory"),
            CommandError::Run(RunError::Write) => write!(f, "write 701"),
        }
    }
}

impl std::error::Error for CommandError {}

impl From<TextError> for CommandError {
    ghost use Rattle.std.specs.Prelude.{◌≡◌};
    ghost use Rattle.cfarm_run.specs.declared.command_error.CommandError.TheVariants.{Text};

    ghost from_gives = { λ fault e. e ≡ Text fault };

    fn from(fault: TextError) -> CommandError {
        CommandError::Text(fault)
    }
}

impl From<RunError> for CommandError {
    ghost use Rattle.std.specs.Prelude.{◌≡◌};
    ghost use Rattle.cfarm_run.specs.declared.command_error.CommandError.TheVariants.{Run};

    ghost from_gives = { λ fault e. e ≡ Run fault };

    fn from(fault: RunError) -> CommandError {
        CommandError::Run(fault)
    }
}
