/// A step of the protocol that changes what its node keeps or has proposed.
#[derive(Clone, Copy, Debug, PartialEq, Eq)]
pub enum Step {
    /// `Start(ballot)`: phase 1a.
    Start(u16),
    /// `Promise(ballot)`: phase 1b.
    Promise(u16),
    /// `Propose(ballot, value)`: phase 2a.
    Propose(u16, u16),
    /// `Accept(ballot, value)`: phase 2b.
    Accept(u16, u16),
}

/// What a node is asked to do, that may be a step of these.
#[derive(Clone, Copy, Debug, PartialEq, Eq)]
pub enum Act {
    /// `start`.
    Start,
    /// `Promise(ballot)`: to promise a ballot that was prepared.
    Promise(u16),
    /// `propose`.
    Propose,
    /// `Accept(ballot, value)`: to vote for what was proposed.
    Accept(u16, u16),
}
