//! What optimisers ask of graphs of nodes: how deep each node lies in loops, and which things are joined with which. It promises nothing of
//! its answers. And blocks of LTL that do with locations what instructions of RTL do with registers, where each register lies in one
//! location all along: of these it promises that they are in range.
#![tactic(auto)]

mod assignment;
mod blocks;
mod depths;
mod joined;
mod parameters;
mod plan;
mod plans;
mod reaching;

pub use assignment::Assignment;
pub use blocks::{blocks_for, blocks_of};
pub use depths::{Edges, depths_of, weight_at};
pub use joined::Joined;
pub use parameters::{are_distinct, locations_of};
