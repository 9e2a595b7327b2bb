//! What a farm is opened from: the offers that stand in the journals of its nodes. They are read pass by pass, checked again
//! all at once by whoever may wait for that, and are then known for each function.
#![tactic(auto)]

mod fault;
mod knowing;
mod laws;
mod storing;

pub use farm_nodes_turn_passes::{Alloc, EquationLists, Passes, Which};
pub use fault::RecordFault;
pub use knowing::known_offers;
pub use laws::{known_is_kept, known_is_written, offer_is_kept};
pub use storing::{Stored, stored_offers};
