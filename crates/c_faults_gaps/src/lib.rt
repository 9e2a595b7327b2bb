//! Which part of an expression or of a change has no value in the state of a run, and the places of the parts behind it.
#![tactic(auto)]

mod changes;
mod gaps;
mod places;

pub use changes::{store_gap, update_gap};
pub use gaps::{first_gap, gap, worth};
pub use places::{behind, behind_action, behind_actions, behind_terms, others, own};
