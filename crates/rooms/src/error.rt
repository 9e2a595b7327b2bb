ghost use Rattle.std.specs.Prelude.{◌≡◌};
ghost use Rattle.rooms.specs.Refusals.{number_of};

use thiserror::Error;

/// Why a room can't be opened.
#[derive(Clone, Copy, Debug, PartialEq, Eq, Error)]
pub enum RoomError {
    #[error("NoMemory")]
    NoMemory,
    /// The kept parts are not settled: no run can have left them.
    #[error("Unsettled")]
    Unsettled,
    /// A cell that nobody had filled refused an offer.
    #[error("CellRefused")]
    CellRefused,
}

impl RoomError {
    /// The number that a user is shown.
    pub fn number(self) -> u16
        ensures { result ≡ number_of self }
    {
        match self {
            RoomError::NoMemory => 1,
            RoomError::Unsettled => 510,
            RoomError::CellRefused => 511,
        }
    }
}
