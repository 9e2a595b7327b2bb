//! Why nothing is emitted.

ghost use Rattle.std.specs.Prelude.{◌≡◌};
ghost use Rattle.cfarm_emit.specs.Lines.{source_status_of, status_of};

use farm_nodes_source::SourceFault;
use lang_base::NoMemory;
use std::fmt;

/// Why nothing is emitted. Its text is the line that a user is shown.
#[derive(Debug, PartialEq, Eq, Drop)]
pub enum EmitError {
    /// The text is not compiled.
    Source(SourceFault),
    /// A growth of memory was refused.
    NoMemory,
    /// The form could not be written.
    Write,
}

impl EmitError {
    /// The exit status of the program.
    pub fn status(&self) -> u8
        ensures { result ≡ status_of self.now }
    {
        match self {
            EmitError::Source(fault) => source_status(fault),
            EmitError::NoMemory => 7,
            EmitError::Write => 4,
        }
    }
}

/// A text is refused, unless there was no memory to tell.
fn source_status(fault: &SourceFault) -> u8
    ensures { result ≡ source_status_of fault.now }
{
    match fault.number() {
        1 => 7,
        _ => 1,
    }
}

impl fmt::Display for EmitError {
    ghost use Rattle.std.specs.Prelude.{Some};
    ghost use Rattle.cfarm_emit.specs.Lines.{emit_line};

    ghost output = { λ fault. Some (emit_line fault) };

    fn fmt<W: fmt::Write>(&self, f: &mut fmt::Formatter<W>) -> fmt::Result {
        match self {
            EmitError::Source(fault) => write!(f, "{fault}"),
            EmitError::NoMemory => write!(f, "memory"),
            EmitError::Write => write!(f, "write 701"),
        }
    }
}

impl std::error::Error for EmitError {}

impl From<NoMemory> for EmitError {
    ghost use Rattle.std.specs.Prelude.{◌≡◌};
    ghost use Rattle.cfarm_emit.specs.declared.error.EmitError.TheVariants.{NoMemory};

    ghost from_gives = { λ _ e. e ≡ NoMemory };

    fn from(_e: NoMemory) -> EmitError {
        EmitError::NoMemory
    }
}
