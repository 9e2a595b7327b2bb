ghost use Rattle.std.specs.Prelude.{ℕ, ◌<◌, IfSome};

use crate::turns::TakesTurns;

/// How often a node goes over all its rooms: in the other rounds it leaves out those where it has learned. There it takes turns for
/// the others alone, which may still have to learn.
const ALL_ROOMS_EVERY: u32 = 8;

/// In one of so many rounds a node takes a turn in a room that it does not lead, and each node in another round: so one that leads
/// reaches its quorums before others start ballots. It has no factor in common with the rounds over all rooms.
const FOLLOWS_EVERY: u32 = 5;

/// A node may be as many turns ahead of the slowest that has still to learn as it has rooms where it has not learned, and at least
/// these. A node that took many turns in one room before others took any would pass each of their ballots.
const LEAST_AHEAD: u32 = 2;

/// At most so many turns ahead, however many rooms are left.
const MOST_AHEAD: u32 = 64;

/// How far a node is in its rooms, which it goes over in their order, round and round. No contract speaks of it but that the room is
/// one of them.
#[derive(Drop)]
pub(crate) struct Cursor {
    /// Round 0 of the node: each node has another one.
    first: u32,
    next: u32,
    round: u32,
    learned: u32,
    /// In how many rooms the node had not learned when the last round ended.
    open: u32,
    /// Whether a turn of this round brought something new.
    has_moved: bool,
    pub has_all: bool,
}

impl Cursor {
    /// Before the first round of the node of this number.
    pub(crate) fn new(number: usize) -> Cursor {
        let first = match u32::try_from(number) {
            Ok(number) => number,
            Err(_) => 0,
        };
        Cursor {
            first,
            next: 0,
            round: 0,
            learned: 0,
            open: MOST_AHEAD,
            has_moved: false,
            has_all: false,
        }
    }

    /// Notes whether the node has learned in the room where the cursor was.
    pub(crate) fn note(&mut self, has_learned: bool) {
        if has_learned {
            self.learned = self.learned.saturating_add(1);
        }
    }

    /// Notes that a turn brought something new.
    pub(crate) fn note_move(&mut self) {
        self.has_moved = true;
    }

    /// How many turns the node may be ahead of others.
    pub(crate) fn most_ahead(&self) -> u64 {
        u64::from(self.open.max(LEAST_AHEAD).min(MOST_AHEAD))
    }

    /// Ends a round over so many rooms: the node has all where it had learned in each.
    fn end_round(&mut self, rooms: u32) {
        self.has_all = self.learned >= rooms;
        self.open = rooms.saturating_sub(self.learned);
        self.next = 0;
        self.learned = 0;
        self.has_moved = false;
        self.round = self.round.wrapping_add(1);
    }

    /// The next of so many rooms. There is none at the end of a round that brought nothing new.
    fn advance(&mut self, rooms: u32) -> Option<u16>
        ensures { IfSome result (λ room. room < rooms) }
    {
        if self.next >= rooms {
            let has_moved = self.has_moved;
            self.end_round(rooms);
            if !has_moved {
                return None;
            }
        }
        let room = self.next;
        if room >= rooms {
            return None;
        }
        self.next = room + 1;
        match u16::try_from(room) {
            Ok(room) => Some(room),
            Err(_) => None,
        }
    }

    /// Whether this round goes over all rooms.
    fn is_round_of_all(&self) -> bool {
        self.round % ALL_ROOMS_EVERY == 0
    }

    /// Whether this is the node's round in a room that it does not lead.
    fn is_round_in(&self, room: u16) -> bool {
        let first = self.first.wrapping_add(u32::from(room));
        self.round.wrapping_add(first) % FOLLOWS_EVERY == 0
    }
}

/// Whether the node has learned in all its rooms.
pub(crate) fn has_learned_all<N: TakesTurns>(node: &N) -> bool {
    for room in 0..node.rooms() {
        let Ok(room) = u16::try_from(room) else {
            return false;
        };
        if !node.has_learned(room) {
            return false;
        }
    }
    true
}

/// The next room for a turn: one that the node leads, or whose round it is. There is none where a round ended that brought nothing
/// new, or where no room was left.
pub(crate) fn next_room<N: TakesTurns>(node: &N, cursor: &mut Cursor) -> Option<u16>
    ensures { IfSome result (λ room. N.has_room node.now room) }
{
    let rooms = node.rooms();
    for _passed in 0..rooms {
        let Some(room) = cursor.advance(rooms) else {
            return None;
        };
        let has_learned = node.has_learned(room);
        let is_open = cursor.is_round_of_all() || !has_learned;
        if is_open && (cursor.is_round_in(room) || node.leads(room)) {
            return Some(room);
        }
        cursor.note(has_learned);
    }
    None
}
