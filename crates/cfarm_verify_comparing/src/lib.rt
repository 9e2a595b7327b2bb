//! Whether a linked program is what offers come to: its functions' names, its functions and its globals; and that what they come to
//! keeps the meaning of what they go on from. The offers' memory is given back by several threads.
#![tactic(auto)]

mod away;
mod comparing;
mod keeping;

pub use away::put_fours_away;
pub use comparing::{first_other, same_globals, same_names};
pub use keeping::linked_keeps;
