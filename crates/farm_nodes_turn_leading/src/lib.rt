//! Leading a room and taking part in it: a node hears every node, proposes, and starts a ballot now and then, by the words of its
//! generator. Each step's record stands in the journal before the step is taken.
#![tactic(auto)]

mod leading;
mod taking_part;

pub use leading::lead;
pub use taking_part::take_part;
