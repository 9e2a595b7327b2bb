use acceptor_log::Log;
use acceptor_log_form::{LogError, Record};
use std::vec::IntoIter;

/// A journal that is refused, and the pairs of all nodes: those in front of it with their journals, its own, and those behind it.
#[derive(Drop)]
pub struct RefusedPair<P> {
    pub node: u8,
    pub fault: LogError,
    pub opened: Vec<(Log<P>, Vec<Record>)>,
    pub pair: Option<P>,
    pub behind: IntoIter<P>,
}
