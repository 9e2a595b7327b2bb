ghost use Rattle.std.specs.Prelude.{◌≡◌};
ghost use Rattle.farm_nodes_open_seats.specs.Faults.{fault_of_journal, fault_of_records, fault_of_room};

use acceptor_log_form::LogError;
use farm_nodes_open_rooms::RoomFault;
use farm_nodes_open_stored::RecordFault;

/// Why a farm's nodes do not come from their disks.
#[derive(Clone, Copy, Debug, PartialEq, Eq)]
pub enum OpenFault {
    /// A growth of memory was refused.
    NoMemory,
    /// The journal of this node (401 to 404).
    Journal(u8, LogError),
    /// An offer in the journal of this node that its pass does not accept (301).
    Refused(u8),
    /// This room (510, 511).
    Room(u16, RoomFault),
}

impl OpenFault {
    /// The journal of the node is refused.
    pub fn of_journal(node: u8, fault: LogError) -> OpenFault
        ensures { result ≡ fault_of_journal node fault }
    {
        match fault {
            LogError::NoMemory => OpenFault::NoMemory,
            _ => OpenFault::Journal(node, fault),
        }
    }

    /// What stands in the journal of the node is refused.
    pub(crate) fn of_records(node: u8, fault: RecordFault) -> OpenFault
        ensures { result ≡ fault_of_records node fault }
    {
        match fault {
            RecordFault::NoMemory => OpenFault::NoMemory,
            RecordFault::BadRecord => OpenFault::Journal(node, LogError::BadRecord),
            RecordFault::Refused => OpenFault::Refused(node),
        }
    }

    /// The room is not opened.
    pub(crate) fn of_room(room: u16, fault: RoomFault) -> OpenFault
        ensures { result ≡ fault_of_room room fault }
    {
        match fault {
            RoomFault::NoMemory => OpenFault::NoMemory,
            _ => OpenFault::Room(room, fault),
        }
    }
}
