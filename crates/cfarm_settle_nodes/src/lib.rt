//! Three nodes of a room of shared words, whatever the pass is that the room's offers are of: the room is opened, each node takes the
//! turns that it is asked for with a seat of its own, and at last each two of the seats meet. What they agree on is the offer of a node whose number all three
//! have learned in a run of the protocol.
#![tactic(auto)]

mod agreeing;
mod meeting;
mod node;
mod offering;
mod opening;
mod player;
mod settle_node;

pub use agreeing::code_agreed;
pub use opening::{list_of_three, open, three_of_list};
pub use settle_node::SettleNode;
