use acceptor_log_form::{LogError, Record};
use rooms_crash::act::SeatAct;

/// What a node was about to do when it was stopped.
#[derive(PartialEq, Eq, Drop)]
pub enum Pending {
    /// A step of the protocol.
    Act(SeatAct),
    /// Its offer, whose record is this.
    Offer(Record),
}

/// Why a node stopped, and over what.
#[derive(PartialEq, Eq, Drop)]
pub struct Stop {
    /// What its journal answered.
    pub error: LogError,
    /// What it has not done.
    pub pending: Pending,
}
