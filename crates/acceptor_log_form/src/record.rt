ghost use Rattle.std.specs.Prelude.{◌≡◌, ◌+◌, length};
ghost use Rattle.acceptor_log_form.specs.Text.{body_text, room_of, FitsWidths};

use lang_base::Row;

/// What a node puts down before it takes a step in a room (Lamport, Paxos Made Simple, section 3), and what a migrated
/// journal tells of a room at once. Each names the room first; a ballot is behind it, and a value (the number of the
/// node whose offer it is) behind the ballot.
#[derive(PartialEq, Eq, Drop)]
pub enum Record {
    /// The node's offer in the room, as it is written.
    Offered(u16, Row<u8>),
    /// It starts the ballot.
    Started(u16, u16),
    /// It proposes the value under the ballot.
    Proposed(u16, u16, u8),
    /// It promises the ballot.
    Promised(u16, u16),
    /// It votes for the value under the ballot.
    Accepted(u16, u16, u8),
    /// It has started this ballot last, promised that one last, and voted so last, under a ballot and for a value; 0
    /// stands for none, of a vote for its value too.
    Summary(u16, u16, u16, (u16, u8)),
}

impl Record {
    /// The room that the record is of.
    pub fn room(&self) -> u16
        ensures { result ≡ room_of self.now }
    {
        match self {
            Record::Offered(room, _) => *room,
            Record::Started(room, _) => *room,
            Record::Proposed(room, _, _) => *room,
            Record::Promised(room, _) => *room,
            Record::Accepted(room, _, _) => *room,
            Record::Summary(room, _, _, _) => *room,
        }
    }

    /// How many bytes the record's body has.
    pub fn body_len(&self) -> usize
        ensures len { result ≡ length (body_text self.now) }
        ensures fits { FitsWidths self.now }
    {
        match self {
            Record::Offered(room, offer) => {
                let _room = *room;
                3 + offer.as_slice().len()
            }
            Record::Started(room, ballot) => {
                let (_room, _ballot) = (*room, *ballot);
                5
            }
            Record::Proposed(room, ballot, _) => {
                let (_room, _ballot) = (*room, *ballot);
                6
            }
            Record::Promised(room, ballot) => {
                let (_room, _ballot) = (*room, *ballot);
                5
            }
            Record::Accepted(room, ballot, _) => {
                let (_room, _ballot) = (*room, *ballot);
                6
            }
            Record::Summary(room, started, promised, accepted) => {
                let (_room, _started) = (*room, *started);
                let (_promised, _ballot) = (*promised, accepted.0);
                10
            }
        }
    }
}
