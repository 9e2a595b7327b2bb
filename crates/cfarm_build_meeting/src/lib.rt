//! What meetings of the nodes of a farm come to, each two neighbours forth and back: what was counted, and what the last node has heard.
#![tactic(auto)]

pub use cfarm_build_result::{Built, linked_functions};
