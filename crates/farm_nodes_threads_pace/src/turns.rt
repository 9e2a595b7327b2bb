ghost use Rattle.std.specs.Prelude.{ℕ, ◌<◌};

/// What a turn brought.
#[derive(Clone, Copy, Debug, PartialEq, Eq)]
pub enum Outcome {
    /// Something new.
    Moved,
    Idle,
    /// It failed: no further turn is asked for.
    Failed,
}

impl Outcome {
    /// Whether the turn failed.
    pub(crate) fn has_failed(self) -> bool {
        matches!(self, Outcome::Failed)
    }

    /// Whether it brought something new.
    pub(crate) fn is_new(self) -> bool {
        matches!(self, Outcome::Moved)
    }
}

/// Who takes turns in rooms.
pub trait TakesTurns {
    /// It may be asked for a turn.
    ghost is_fit: { Self → Type 0 };

    /// The turn may be in this room.
    ghost has_room: { Self → ℕ → Type 0 };

    /// What a turn may leave of it.
    ghost turned: { Self → Self → Type 0 };

    /// How many rooms it is asked for turns in.
    fn rooms(&self) -> u32
        ensures { (room : ℕ) → room < result → has_room self.now room };

    /// Whether it has learned in the room.
    fn has_learned(&self, room: u16) -> bool
        requires { has_room self.now room };

    /// Whether its own ballot is under way in the room, and it has promised no higher one.
    fn leads(&self, room: u16) -> bool
        requires { has_room self.now room };

    /// One turn in the room.
    fn take_turn(&mut self, room: u16) -> Outcome
        requires fit { is_fit self.old }
        requires room { has_room self.old room }
        ensures fit { is_fit self.new }
        ensures turned { turned self.old self.new }
        ensures stays { has_room self.new room };
}
