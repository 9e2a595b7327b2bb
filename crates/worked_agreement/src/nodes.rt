//! The nodes of a room.

use paxos_core::Node;
use paxos_core_world::kept::Kept;
use paxos_core_world::quorum::Quorums;
use std::alloc::Global;
use worked_row_files::fine;

/// All nodes of a room with these quorums.
pub fn all_nodes(alloc: Global, quorums: Quorums) -> Option<Vec<Node>> {
    let mut nodes = Vec::new(alloc);
    for me in 0..quorums.nodes() {
        fine!(nodes.push(Node::new(me, quorums)));
    }
    Some(nodes)
}

/// Restarts the node at the place with what it kept, or with the given part.
pub fn restart(nodes: &mut Vec<Node>, place: usize, given: Option<Kept>) -> Option<()> {
    if place >= nodes.len() {
        return None;
    }
    let node = nodes.remove(place);
    let kept = given.unwrap_or(node.kept());
    nodes.insert(place, node.restart(kept)).ok()
}
