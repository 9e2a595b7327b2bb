//! The seat of a node of a room over shared words, which stand in a table alone or beside those of three other rooms: its right to
//! store its own two words and to load all. Promises of each call which step of the protocol it is. A call is written as one load
//! or one store of one word, but `meet` and `forget`, which load more: the contracts count no loads, since one more between two
//! steps of other nodes shows in no view.
#![tactic(auto)]

mod looking;
mod meeting;
mod opening;
mod seat;

pub use meeting::{Meeting, meet_words};
pub use opening::{Dealer, FourDealers, open_four};
pub use rooms_meeting::act;
pub use rooms_words::{CoreError, acceptor, proposer};
pub use seat::WordSeat;
