//! The two shared words of a node of a room, each one number of 64 bits: what its proposer has started and proposed, and
//! what its acceptor has promised and accepted. The rule of a room's words: after every single step on a word there is a
//! run of the protocol, from the room's opening, whose last world has these words and to which the views of all seats
//! belong. What is packed is read back as it was; steps of the protocol keep the rule; the seats may be dealt out and
//! tell each other what they have seen.
#![tactic(auto)]

pub mod acceptor;
pub mod event;
pub mod proposer;
pub mod rule;
pub mod view;

pub use paxos_core::{CoreError, Node, step};
