use acceptor_log_form::Record;
use farm_nodes_sweep_step::Staged;

/// What a node does next in the room of a pass.
#[derive(Drop)]
pub enum Choice<B: Drop> {
    /// It makes this offer, whose record this is.
    Offer(Record, B),
    /// It takes this step of the protocol.
    Act(Staged),
    /// Nothing.
    Nothing,
}
