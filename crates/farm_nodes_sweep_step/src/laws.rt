//! What is looked at, staged and taken in one room, told of all rooms, as contracts of calls that do nothing else.

ghost use Rattle.farm_nodes_sweep_step.specs.StepLaws.{LooksLeavePending, StagedMayBePut, TakenIsStep};

/// Looks leave what is pending in other rooms pending.
pub fn looks_leave_pending()
    ensures { LooksLeavePending }
{}

/// A record that goes on from what the seat of its room keeps may be put down.
pub fn staged_may_be_put()
    ensures { StagedMayBePut }
{}

/// A step that leaves what its record leaves is the taking of that record.
pub fn taken_is_step()
    ensures { TakenIsStep }
{}
