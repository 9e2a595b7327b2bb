//! Schedules of the nodes of a room, line by line: what `sim` reads, what its nodes do, and what it prints. Each command is
//! one call of a node, so what is shown is a run of the protocol.
#![tactic(auto)]

mod error;
mod playing;
mod room;
mod told;

pub use error::ScheduleError;
pub use playing::{closing_of, next_line, obey, simulate};
pub use room::Room;
pub use told::Told;
