//! The word steps of a room: each kind keeps the rule of the room's words, tells what it tells, and leaves true what
//! seats saw of the words. Lemmas alone, on which the calls of a seat stand.
#![tactic(auto)]

pub use rooms_words::{acceptor, proposer, rule, view};
