/// The two words of a node, as the numbers that were last found there.
#[derive(Clone, Copy)]
pub struct SeenWords {
    pub proposer: u64,
    pub acceptor: u64,
}
