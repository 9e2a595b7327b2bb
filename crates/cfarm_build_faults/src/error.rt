ghost use Rattle.std.specs.Prelude.{◌≡◌};
ghost use Rattle.cfarm_build_faults.specs.Statuses.{disks_status_of, failed_status_of, source_status_of, status_of};

use farm_nodes::{FarmError, LinkError, OpenFault, SourceFault};
use farm_nodes_turn_offer::Fault;

/// Why nothing is built. Its text is the line that a user is shown.
#[derive(Debug, Drop)]
pub enum BuildError {
    /// A growth of memory was refused.
    NoMemory,
    /// A thread could not be made.
    NoThread,
    /// The text is not compiled.
    Source(SourceFault),
    /// The nodes do not come from their disks.
    Disks(OpenFault),
    /// The lowest node that a fault stopped.
    Failed(usize, Fault),
    /// A node does not link all functions.
    Undecided,
    /// The function of this name is not linked.
    Unlinked(LinkError, String),
    /// The names beside what was learned are not those of the program's functions.
    Names,
}

impl BuildError {
    /// The exit status of the program.
    pub fn status(&self) -> u8
        ensures { result ≡ status_of self.now }
    {
        match self {
            BuildError::NoMemory | BuildError::NoThread => 7,
            BuildError::Source(fault) => source_status(fault),
            BuildError::Disks(fault) => disks_status(*fault),
            BuildError::Failed(_, fault) => failed_status(*fault),
            BuildError::Undecided => 3,
            BuildError::Unlinked(_, _) | BuildError::Names => 4,
        }
    }
}

/// A text is refused, unless there was no memory to tell.
fn source_status(fault: &SourceFault) -> u8
    ensures { result ≡ source_status_of fault.now }
{
    match fault.number() {
        1 => 7,
        _ => 1,
    }
}

/// A journal is refused, unless there was no memory to tell.
fn disks_status(fault: OpenFault) -> u8
    ensures { result ≡ disks_status_of fault }
{
    match FarmError::Disks(fault).number() {
        1 => 7,
        _ => 4,
    }
}

/// What stopped a node, unless that was want of memory.
fn failed_status(fault: Fault) -> u8
    ensures { result ≡ failed_status_of fault }
{
    match fault.number() {
        1 => 7,
        _ => 4,
    }
}
