ghost use Rattle.paxos_core_invariant.specs.Kept.{OpensWithInvariant, StepsKeepInvariant};

/// What holds of every world of a run from settled kept parts.
pub fn invariant_holds()
    ensures opens { OpensWithInvariant }
    ensures kept { StepsKeepInvariant }
{}
