//! What a build notes, for a user, of the journals that stand in its folder: which nodes have none, and how many were
//! migrated in vain. Nothing that is built depends on it.
#![tactic(auto)]

mod noting;

pub use noting::{Standing, note_lost, note_migrated, standing_of};
