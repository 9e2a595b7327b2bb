/// What a seat is asked to do, that may be a step of the protocol.
#[derive(Clone, Copy, Debug, PartialEq, Eq)]
pub enum SeatAct {
    /// To start a ballot.
    Start,
    /// To promise the ballot that node `j` was last seen to have started.
    Promise(u8),
    /// To propose under the ballot under way.
    Propose,
    /// To vote for what node `j` was last seen to have proposed.
    Accept(u8),
}
