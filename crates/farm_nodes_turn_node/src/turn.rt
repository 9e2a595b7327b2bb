ghost use Rattle.std.specs.Prelude.{◌≡◌};
ghost use Rattle.farm_nodes_turn_node.specs.Told.{turn_of};

use farm_nodes_turn_function::{Fault, Progress};

/// What a turn of a node brought.
#[derive(Clone, Copy, Debug, PartialEq, Eq)]
pub enum Turn {
    /// The node learned this value in the turn.
    Learned(u8),
    /// It took a step.
    Moved,
    /// Neither.
    Idle,
    /// It was stopped, by this fault; `Fault::Journal(LogError::Stopped)` is told where it had been stopped before.
    Failed(Fault),
}

impl Turn {
    /// What a turn that did not fail brought.
    pub(crate) fn of(progress: Progress) -> Turn
        ensures { result ≡ turn_of progress }
    {
        match progress {
            Progress::Learned(value) => Turn::Learned(value),
            Progress::Moved => Turn::Moved,
            Progress::Idle => Turn::Idle,
        }
    }
}
