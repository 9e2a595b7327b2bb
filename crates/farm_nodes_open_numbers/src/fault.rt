ghost use Rattle.std.specs.Prelude.{◌≡◌};

/// Why a room is not opened.
#[derive(Clone, Copy, Debug, PartialEq, Eq)]
pub enum RoomFault {
    /// A growth of memory was refused.
    NoMemory,
    /// What its nodes have kept is not settled: no run can have left it (510).
    Unsettled,
    /// A cell that nobody had filled refused an offer (511).
    CellRefused,
    /// The hall has no number left for it.
    Spent,
}

/// The first room in order that is not opened, and why.
#[derive(Clone, Copy, Debug, PartialEq, Eq)]
pub struct Unopened {
    pub room: u16,
    pub fault: RoomFault,
}

impl Unopened {
    /// There is no memory for this room.
    pub fn no_memory(room: u16) -> Unopened
        ensures room { result.room ≡ room }
        ensures fault { result.fault ≡ RoomFault.NoMemory }
    {
        Unopened {
            room,
            fault: RoomFault::NoMemory,
        }
    }
}
