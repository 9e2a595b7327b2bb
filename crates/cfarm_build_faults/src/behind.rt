//! What explains a line, wherever it is told.

ghost use Rattle.std.specs.Prelude.{◌≡◌};
ghost use Rattle.cfarm_build_faults.specs.Lines.{build_behind, disks_behind, journal_behind};

use crate::error::BuildError;
use acceptor_log_form::LogError;
use farm_nodes::OpenFault;
use std::fmt;

/// What stands behind the line of a journal that is refused so: the end of that line and one of its own where it is of another build.
fn journal_behind(fault: LogError) -> &'static str
    ensures { result.now ≡ journal_behind fault }
{
    match fault {
        LogError::OtherSource => {
            "\nthe journals of that folder are of another text, nodes or quorums: this build needs a folder of its own (--dir)"
        }
        LogError::NoMemory | LogError::Device | LogError::NotAJournal => "",
        LogError::BadRecord | LogError::Stopped | LogError::Full => "",
    }
}

fn disks_behind(fault: OpenFault) -> &'static str
    ensures { result.now ≡ disks_behind fault }
{
    match fault {
        OpenFault::Journal(_, fault) => journal_behind(fault),
        OpenFault::NoMemory | OpenFault::Refused(_) | OpenFault::Room(_, _) => "",
    }
}

fn behind(fault: &BuildError) -> &'static str
    ensures { result.now ≡ build_behind fault.now }
{
    match fault {
        BuildError::Disks(fault) => disks_behind(*fault),
        BuildError::NoMemory | BuildError::NoThread | BuildError::Source(_) => "",
        BuildError::Failed(_, _) | BuildError::Undecided => "",
        BuildError::Unlinked(_, _) | BuildError::Names => "",
    }
}

/// Why nothing is built, as a user is told it: the line, and behind it what explains it, where that is not plain.
#[derive(Drop)]
pub struct ToldFault<'a>(pub &'a BuildError);

impl fmt::Display for ToldFault<'_> {
    ghost use Rattle.std.specs.Prelude.{Some};
    ghost use Rattle.cfarm_build_faults.specs.Lines.{told_line};

    ghost output = { λ told. Some (told_line told.0.now) };

    fn fmt<W: fmt::Write>(&self, f: &mut fmt::Formatter<W>) -> fmt::Result {
        let (fault, behind) = (self.0, behind(self.0));
        write!(f, "{fault}{behind}")
    }
}
