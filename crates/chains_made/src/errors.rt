use chains::LinkError;
use lang_base::{NoMemory, PassError};
use std::alloc::{AllocError, AllocFailed};
use std::fmt;

/// Why a checked program was not compiled.
#[derive(Clone, Copy, Debug, PartialEq, Eq)]
pub enum CompileError {
    /// The program has no RTL program, or it is not linked.
    Link(LinkError),
    /// A function has no baseline.
    Pass(PassError),
}

impl fmt::Display for CompileError {
    fn fmt<W: fmt::Write>(&self, f: &mut fmt::Formatter<W>) -> fmt::Result {
        match self {
            CompileError::Link(fault) => write!(f, "{fault}"),
            CompileError::Pass(fault) => write!(f, "{fault}"),
        }
    }
}

impl std::error::Error for CompileError {}

impl From<LinkError> for CompileError {
    ghost use Rattle.std.specs.Prelude.{◌≡◌};
    ghost use Rattle.chains_made.specs.declared.errors.CompileError.TheVariants.{Link};

    ghost from_gives = { λ fault e. e ≡ Link fault };

    fn from(fault: LinkError) -> CompileError {
        CompileError::Link(fault)
    }
}

impl From<PassError> for CompileError {
    ghost use Rattle.std.specs.Prelude.{◌≡◌};
    ghost use Rattle.chains_made.specs.declared.errors.CompileError.TheVariants.{Pass};

    ghost from_gives = { λ fault e. e ≡ Pass fault };

    fn from(fault: PassError) -> CompileError {
        CompileError::Pass(fault)
    }
}

impl From<NoMemory> for CompileError {
    ghost use Rattle.std.specs.Prelude.{◌≡◌};
    ghost use Rattle.chains.specs.LinkError.TheVariants.{NoMemory};
    ghost use Rattle.chains_made.specs.declared.errors.CompileError.TheVariants.{Link};

    ghost from_gives = { λ _ e. e ≡ Link NoMemory };

    fn from(_e: NoMemory) -> CompileError {
        CompileError::Link(LinkError::NoMemory)
    }
}

impl From<AllocError> for CompileError {
    ghost use Rattle.std.specs.Prelude.{◌≡◌};
    ghost use Rattle.chains.specs.LinkError.TheVariants.{NoMemory};
    ghost use Rattle.chains_made.specs.declared.errors.CompileError.TheVariants.{Link};

    ghost from_gives = { λ _ e. e ≡ Link NoMemory };

    fn from(_e: AllocError) -> CompileError {
        CompileError::Link(LinkError::NoMemory)
    }
}

impl<T: Drop> From<AllocFailed<T>> for CompileError {
    ghost use Rattle.std.specs.Prelude.{◌≡◌};
    ghost use Rattle.chains.specs.LinkError.TheVariants.{NoMemory};
    ghost use Rattle.chains_made.specs.declared.errors.CompileError.TheVariants.{Link};

    ghost from_gives = { λ _ e. e ≡ Link NoMemory };

    fn from(_e: AllocFailed<T>) -> CompileError {
        CompileError::Link(LinkError::NoMemory)
    }
}
