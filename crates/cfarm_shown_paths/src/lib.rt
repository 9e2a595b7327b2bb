//! Paths as a user is shown them: what would move a terminal's cursor or change its colours stands as the code of the character, and all else as
//! it is.
#![tactic(auto)]

mod laws;
mod shown;

pub use laws::{plain_stays, shown_is_plain};
pub use shown::ShownPath;
