/// A step of the protocol: which node does what, under which ballot, with which value.
#[derive(Clone, Copy, Debug, PartialEq, Eq)]
pub enum Label {
    /// `Offers(node)`: it makes its offer.
    Offers(u8),
    /// `Starts(node, ballot)`: phase 1a.
    Starts(u8, u16),
    /// `Promises(node, ballot)`: phase 1b.
    Promises(u8, u16),
    /// `Proposes(ballot, value)`: phase 2a.
    Proposes(u16, u16),
    /// `Accepts(node, ballot, value)`: phase 2b.
    Accepts(u8, u16, u16),
    /// `Learns(node, value)`: an accept quorum has voted for the value under one ballot.
    Learns(u8, u16),
    /// `Restarts(node)`: it forgets all but its kept part.
    Restarts(u8),
}
