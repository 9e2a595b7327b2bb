//! What it is worth that a vote is told as chosen, as the contract of a call that does nothing else.

ghost use Rattle.std.specs.Prelude.{◌<◌, ℕ, List};
ghost use Rattle.paxos_core_world.specs.KeptPart.{KeptPart};
ghost use Rattle.cfarm_fsck_chosen.specs.Chosen.{ChosenHasQuorum, OpenHasNoQuorum};

/// A vote is told exactly where an accept quorum's last votes are of one ballot.
pub fn chosen_exactly()
    ensures chosen { (accept : ℕ) (nodes : List KeptPart) → ChosenHasQuorum accept nodes }
    ensures open { (accept : ℕ) (nodes : List KeptPart) → 0 < accept → OpenHasNoQuorum accept nodes }
{}
