//! The pairs of disks of a farm's nodes: the journal of each is opened, in the order of the nodes. An old one that counts is migrated, and
//! a pair with none gets a journal without records. The first that is refused is told, and all pairs come back.
#![tactic(auto)]

mod empty;
mod journal;
mod listing;
mod opening;
mod pair;
mod refused;

pub use opening::open_journals;
pub use refused::RefusedPair;
