ghost use Rattle.std.specs.Prelude.{◌≡◌};
ghost use Rattle.cfarm_sim.specs.Lines.{status_of};

use lang_base::NoMemory;
use std::alloc::AllocError;
use std::error::Error;
use std::fmt;

/// Why a schedule was not played to its end. Its text is the line that a user is shown.
#[derive(Clone, Copy, Debug, PartialEq, Eq)]
pub enum ScheduleError {
    NoMemory,
    /// The line with this number, from 1, has another form, or names a node that is none or a message that was not sent yet.
    Schedule(u64),
    /// The writer failed; it may hold a beginning of the output.
    Write,
}

impl ScheduleError {
    /// The exit status of the program.
    pub fn status(self) -> u8
        ensures { result ≡ status_of self }
    {
        match self {
            ScheduleError::NoMemory => 7,
            ScheduleError::Schedule(_) => 2,
            ScheduleError::Write => 4,
        }
    }
}

impl fmt::Display for ScheduleError {
    ghost use Rattle.std.specs.Prelude.{Some};
    ghost use Rattle.cfarm_sim.specs.Lines.{schedule_line};

    ghost output = { λ fault. Some (schedule_line fault) };

    fn fmt<W: fmt::Write>(&self, f: &mut fmt::Formatter<W>) -> fmt::Result {
        match self {
            ScheduleError::NoMemory => write!(f, "memory"),
            ScheduleError::Schedule(line) => write!(f, "schedule {line}"),
            ScheduleError::Write => write!(f, "write 701"),
        }
    }
}

impl Error for ScheduleError {}

impl From<NoMemory> for ScheduleError {
    ghost use Rattle.std.specs.Prelude.{◌≡◌};
    ghost use Rattle.cfarm_sim.specs.declared.error.ScheduleError.TheVariants.{NoMemory};

    ghost from_gives = { λ _ e. e ≡ NoMemory };

    fn from(_e: NoMemory) -> ScheduleError {
        ScheduleError::NoMemory
    }
}

impl From<AllocError> for ScheduleError {
    ghost use Rattle.std.specs.Prelude.{◌≡◌};
    ghost use Rattle.cfarm_sim.specs.declared.error.ScheduleError.TheVariants.{NoMemory};

    ghost from_gives = { λ _ e. e ≡ NoMemory };

    fn from(_e: AllocError) -> ScheduleError {
        ScheduleError::NoMemory
    }
}
