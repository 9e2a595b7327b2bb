use crate::vote::Vote;

/// What nodes of one room send each other (Lamport, Paxos Made Simple, phases 1 and 2).
#[derive(Clone, Copy, Debug, PartialEq, Eq)]
pub enum Msg {
    /// `Prepare(ballot)`: the ballot's owner asks everybody for a promise.
    Prepare(u16),
    /// `Promise(from, ballot, accepted)`: the sender takes no lower ballot from now on, and reports
    /// its vote so far.
    Promise(u8, u16, Option<Vote>),
    /// `Propose(ballot, value)`: the ballot's owner asks everybody to accept the value.
    Propose(u16, u16),
    /// `Accepted(from, ballot, value)`: the sender voted for the value under the ballot.
    Accepted(u8, u16, u16),
}
