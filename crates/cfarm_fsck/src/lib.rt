//! The command `fsck`: from the bytes of a folder's journals to lines on a writer. Nothing is written but those: the journals are read as a
//! farm over the folder would read them, and are refused as that would refuse them; then the last votes of each room are told, and the vote
//! that an accept quorum's last votes are of; and a function is refused whose chosen offers would never be linked.
#![tactic(auto)]

mod command;
mod error;
mod journals;
mod lines;
mod printing;

pub use command::fsck;
pub use error::FsckError;
pub use lines::{node_line, room_rest};
