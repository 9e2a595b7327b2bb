//! Why a build is not done.

ghost use Rattle.std.specs.Prelude.{◌≡◌};
ghost use Rattle.cfarm_build_folder.specs.Answers.{status_of};

use cfarm_build_faults::{BuildError, ToldFault};
use cfarm_files::Reason;
use cfarm_shown_paths::ShownPath;
use std::fmt;

/// Why a build is not done. Its text is the line that a user is shown.
#[derive(Debug, Drop)]
pub enum BuildingError {
    /// The text is refused, or the farm builds nothing, or there was no memory.
    Build(BuildError),
    /// The file of this path cannot be opened, made or written, for this reason.
    File(String, Reason),
    /// The report could not be written. The program was.
    Write,
}

impl BuildingError {
    /// The exit status of the program.
    pub fn status(&self) -> u8
        ensures { result ≡ status_of self.now }
    {
        match self {
            BuildingError::Build(fault) => fault.status(),
            BuildingError::File(_, _) => 2,
            BuildingError::Write => 4,
        }
    }
}

impl fmt::Display for BuildingError {
    ghost use Rattle.std.specs.Prelude.{Some};
    ghost use Rattle.cfarm_build_folder.specs.Answers.{building_line};

    ghost output = { λ fault. Some (building_line fault) };

    fn fmt<W: fmt::Write>(&self, f: &mut fmt::Formatter<W>) -> fmt::Result {
        match self {
            BuildingError::Build(fault) => {
                let told = ToldFault(fault);
                write!(f, "{told}")
            }
            BuildingError::File(path, reason) => {
                let (path, tail) = (ShownPath(path.as_str()), reason.tail());
                write!(f, "file {path}{tail}")
            }
            BuildingError::Write => write!(f, "write 701"),
        }
    }
}

impl std::error::Error for BuildingError {}
