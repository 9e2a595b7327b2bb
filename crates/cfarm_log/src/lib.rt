//! The command `log`: from the bytes of one journal to lines on a writer. They are exactly the records that opening it lists, or those in
//! front of its first fault; what stands behind a closed gate is no record, and is not listed.
#![tactic(auto)]

mod error;
mod front;
mod head;
mod listing;
mod printing;
mod version;

pub use error::ListingError;
pub use listing::list_journal;
pub use version::Version;
