//! Two nodes of a farm meet. A stopped node meets nobody; of two that meet nothing but their seats changes, and both stay sound.
//! Whether two nodes are of two farms is told by their numbers.
#![tactic(auto)]

mod meeting;
mod strangers;

pub use meeting::meet_nodes;
pub use strangers::are_strangers;
