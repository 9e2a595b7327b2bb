//! How long a node waits for others.

use crate::pace::Pace;

/// A node that took no step in a whole round waits while another's turn is under way, until one brings something new. No contract
/// speaks of it.
#[derive(Drop)]
pub(crate) struct Patience {
    /// How many turns had brought something new when it began to wait; none where it does not wait.
    moves: Option<u64>,
}

impl Patience {
    /// It does not wait.
    pub(crate) fn none() -> Patience {
        Patience { moves: None }
    }

    /// It begins to wait.
    pub(crate) fn begin(&mut self, pace: &Pace) {
        self.moves = Some(pace.moves());
    }

    /// Whether it waits on.
    pub(crate) fn waits(&mut self, pace: &Pace) -> bool {
        let Some(moves) = self.moves else {
            return false;
        };
        if pace.is_turning() && pace.moves() == moves {
            return true;
        }
        self.moves = None;
        false
    }
}
