//! What a build makes of what a node has learned, where the node links all functions: the bytes of its program, their bundle, which
//! carries the offers whoever made them, and the report: which node's offer was learned in the four rooms of each function, the digest of
//! what was linked, and how many nodes there are, as one line of JSON.
#![tactic(auto)]

mod built;
mod bundling;
mod entries;
mod function;
mod making;
mod numbers;
mod reporting;
mod writing;

pub use built::Built;
pub use bundling::bundled;
pub use farm_nodes_link::{FarmNode, LinkError, LinkedError, is_undecided, linked_translated};
pub use farm_nodes_source::{Source, name_of};
pub use function::FunctionRooms;
pub use making::made_of;
pub use numbers::linked_functions;
pub use reporting::report;
