//! Writes over bytes, what a crash makes of one that is not synced, and what a disk notes of its calls, so that each
//! image that a crash may leave after them is known.
#![tactic(auto)]

mod call;
mod overwriting;
mod replaying;
mod tearing;

pub use call::{Call, keep, note};
pub use lang_base::NoMemory;
pub use overwriting::{lengthen, overwrite};
pub use replaying::torn_image;
pub use tearing::{garble, tear};
