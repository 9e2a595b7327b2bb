//! What stands in the journals of a farm's nodes: what each has kept of each room, and the offers that it made. All are read first, node by
//! node: records out of order, or whose bytes are no offer, are refused, and the node is told. Only then are the offers checked again,
//! node by node, by many threads: nobody's certificate is trusted.
#![tactic(auto)]

mod accepting;
mod checking;
mod kept;
mod one;
mod reading;
mod stored;

pub use checking::OffersOf;
pub use cse_check::Cse;
pub use farm_nodes_open_offers::{Alloc, EquationLists, RecordFault, known_is_kept};
pub use linearize_check::{Linearize, Order};
pub use reading::BadNode;
pub use stored::stored_nodes;
