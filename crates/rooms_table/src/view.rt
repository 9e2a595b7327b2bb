use rooms_words::view::{Opening, View};
use std::collections::LinkedList;

/// How the rooms of a table were opened, all with as many nodes.
#[derive(Clone, Copy)]
pub struct Openings {
    /// How many rooms there are: those from here on count for nothing.
    pub rooms: u8,
    pub each: [Opening; 4],
    /// The number of the table, which all its rooms share.
    pub number: u64,
}

/// What a seat knows of each room of its table. No value of it is made: it stands in proofs alone.
pub struct Views {
    pub rooms: LinkedList<View>,
}
