//! The turn of a node from a journal of an older form to a new one. What the old journal's records are translated to is put
//! down on the new disk and synced; and then the old disk's first byte is set, so that it counts no more. A crash at any
//! moment leaves one of the two, whole, with the same kept parts.
#![tactic(auto)]

mod migrating;
mod turning;

pub use migrating::migrate;
pub use turning::turn;
