//! The command `settle`, as a function over bytes and a writer: three nodes, each on a thread of its own, agree on one node's offer for an
//! LTL function (`agree`), and the bytes of its Linear code are printed. That they
//! agree is not promised, since threads may be held up for ever; what they agree on is the offer of a node whose number all three
//! have learned in a run of the protocol. What a node does stands in `cfarm_settle_nodes`, for any pass.
#![tactic(auto)]

mod agreeing;
mod playing;
mod settle_error;
mod settler;
mod settling;

pub use agreeing::agree;
pub use playing::Seats;
pub use settle_error::SettleError;
pub use settling::settle;
