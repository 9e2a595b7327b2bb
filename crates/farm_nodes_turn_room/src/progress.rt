ghost use Rattle.std.specs.Prelude.{◌≡◌};
ghost use Rattle.farm_nodes_turn_room.specs.Played.{progress_of};

/// What a turn brought.
#[derive(Clone, Copy, Debug, PartialEq, Eq)]
pub enum Progress {
    /// The node learned this value in the turn.
    Learned(u8),
    /// It took a step.
    Moved,
    /// Neither.
    Idle,
}

impl Progress {
    /// What a turn brought before which the node had learned this, if anything, and after which that.
    pub(crate) fn of(before: Option<u8>, after: Option<u8>, moved: bool) -> Progress
        ensures { result ≡ progress_of before after moved }
    {
        match (before, after) {
            (None, Some(value)) => Progress::Learned(value),
            _ if moved => Progress::Moved,
            _ => Progress::Idle,
        }
    }
}
