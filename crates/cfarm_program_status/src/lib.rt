//! What the program answers: a status, and a line on standard error, with what a user is shown round it; and a file that it cannot read.
#![tactic(auto)]

mod telling;
mod unread;

pub use telling::{UNWRITTEN, tell, tell_among, tell_no_memory};
pub use unread::{tell_barred, tell_unread};
