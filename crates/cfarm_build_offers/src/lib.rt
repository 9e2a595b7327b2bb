//! Offers that were made outside: written offers in files, which a node proposes before it asks its own optimiser. Nothing is promised of
//! them: what is proposed is checked by the node as any proposal is. Here they are read once, and what was not used is told.
#![tactic(auto)]

mod fault;
mod given;
mod outside;
mod reading;
mod telling;

pub use farm_nodes_turn_passes::Oracles;
pub use given::NodeOffers;
pub use outside::{Outside, outside_of};
pub use reading::read_given;
pub use telling::tell_ignored;
