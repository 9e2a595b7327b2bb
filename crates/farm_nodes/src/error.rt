ghost use Rattle.std.specs.Prelude.{◌≡◌};
ghost use Rattle.farm_nodes.specs.Numbers.{number_of, room_number_of};

use farm_nodes_open_nodes::{OpenFault, RoomFault};
use farm_nodes_source::SourceFault;

/// Why a farm does not open. What is refused of the text comes first.
#[derive(Debug, PartialEq, Eq, Drop)]
pub enum FarmError {
    /// The text is not compiled.
    Source(SourceFault),
    /// The nodes do not come from their disks.
    Disks(OpenFault),
}

impl FarmError {
    /// The number that a user is shown.
    pub fn number(&self) -> u16
        ensures { result ≡ number_of self.now }
    {
        match self {
            FarmError::Source(fault) => fault.number(),
            FarmError::Disks(OpenFault::NoMemory) => 1,
            FarmError::Disks(OpenFault::Journal(_, fault)) => fault.number(),
            FarmError::Disks(OpenFault::Refused(_)) => 301,
            FarmError::Disks(OpenFault::Room(_, fault)) => room_number(*fault),
        }
    }
}

/// The number of a room that is not opened.
fn room_number(fault: RoomFault) -> u16
    ensures { result ≡ room_number_of fault }
{
    match fault {
        RoomFault::NoMemory | RoomFault::Spent => 1,
        RoomFault::Unsettled => 510,
        RoomFault::CellRefused => 511,
    }
}
