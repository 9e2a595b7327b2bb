//! The lines of a schedule, as `cfarm_sim` plays them: what each is spelled as, and how it is read.
#![tactic(auto)]

mod command;
mod heads;
mod parts;
mod reading;

pub use command::Command;
pub use heads::quorums_of;
pub use parts::split_at_byte;
pub use reading::command_of;
