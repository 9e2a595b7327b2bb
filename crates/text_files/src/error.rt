ghost use Rattle.std.specs.Prelude.{◌≡◌};
ghost use Rattle.text_files.specs.Statuses.{status_of};

use cfarm_output::FormLine;
use lang_base::FormError;
use lang_helpers::RunError;
use std::fmt;

/// Why a text was not shown. Its text is the line that a user is shown.
#[derive(Clone, Copy, Debug, PartialEq, Eq)]
pub enum ShowError {
    /// The bytes are those of no program, or there was no memory to read them or for the text.
    Form(FormError),
    /// The writer failed; a beginning of the text was written.
    Run(RunError),
}

impl ShowError {
    /// The exit status of the program.
    pub fn status(self) -> u8
        ensures { result ≡ status_of self }
    {
        match self {
            ShowError::Form(FormError::NoMemory) | ShowError::Run(RunError::NoMemory) => 7,
            ShowError::Form(_) => 1,
            ShowError::Run(RunError::Write) => 4,
        }
    }
}

impl fmt::Display for ShowError {
    ghost use Rattle.std.specs.Prelude.{Some};
    ghost use Rattle.text_files.specs.Lines.{show_line};

    ghost output = { λ fault. Some (show_line fault) };

    fn fmt<W: fmt::Write>(&self, f: &mut fmt::Formatter<W>) -> fmt::Result {
        match self {
            ShowError::Form(FormError::NoMemory) | ShowError::Run(RunError::NoMemory) => {
                write!(f, "memory")
            }
            ShowError::Form(fault) => {
                let line = FormLine(*fault);
                write!(f, "{line}")
            }
            ShowError::Run(RunError::Write) => write!(f, "write 701"),
        }
    }
}

impl std::error::Error for ShowError {}

impl From<FormError> for ShowError {
    ghost use Rattle.std.specs.Prelude.{◌≡◌};
    ghost use Rattle.text_files.specs.declared.error.ShowError.TheVariants.{Form};

    ghost from_gives = { λ fault e. e ≡ Form fault };

    fn from(fault: FormError) -> ShowError {
        ShowError::Form(fault)
    }
}

impl From<RunError> for ShowError {
    ghost use Rattle.std.specs.Prelude.{◌≡◌};
    ghost use Rattle.text_files.specs.declared.error.ShowError.TheVariants.{Run};

    ghost from_gives = { λ fault e. e ≡ Run fault };

    fn from(fault: RunError) -> ShowError {
        ShowError::Run(fault)
    }
}
