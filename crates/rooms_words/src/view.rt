use crate::event::Event;
use paxos_core::Node;
use paxos_core_world::kept::Kept;
use paxos_core_world::quorum::Quorums;
use std::collections::LinkedList;

/// How a room was opened: how many nodes it has and are its quorums, and what each of them had kept.
#[derive(Clone, Copy)]
pub struct Opening {
    pub quorums: Quorums,
    pub kept: [Kept; 7],
}

/// What a seat knows of its room. No value of it is made: it stands in proofs alone.
pub struct View {
    /// False for a seat that has told what it knew.
    pub live: bool,
    pub opening: Opening,
    /// The nodes for which it may step are those from `first` up to `end`.
    pub first: u8,
    pub end: u8,
    /// The run of the protocol so far, the newest step first, as it was when the seat last stepped.
    pub seen: LinkedList<Event>,
    /// A beginning of the run that another seat told it, and how that seat's room was opened.
    pub told: LinkedList<Event>,
    pub told_by: Opening,
    /// The node of the seat, held as if it had made its offer, which stands in a cell and not in a word.
    pub node: Node,
}
