use std::collections::LinkedList;
use std::marker::Model;

/// Which rooms they are that share a number, as proofs know them: where their words are, and the names of their cells. No value of
/// it is made.
pub struct Room {}

impl Model for Room {
    ghost use Rattle.rooms_hall.specs.RoomId.{RoomId, nowhere, room_id_coded};

    ghost Value = { RoomId };

    ghost coded = { room_id_coded };

    ghost view = { λ r. nowhere };
}

/// A number that was given, and the room that has it. No value of it is made.
pub struct Given {
    pub number: u64,
    pub room: Room,
}

/// What a seat knows of its hall. No value of it is made.
pub struct View {
    /// The numbers that it knows of, its own first.
    pub claims: LinkedList<Given>,
    /// The number that it has drawn and that no room has yet, if there is one.
    pub drawn: LinkedList<u64>,
}
