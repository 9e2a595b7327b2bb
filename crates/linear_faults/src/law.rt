//! The laws of faults, as the contracts of calls that do nothing else.

ghost use Rattle.linear_faults.specs.Faults.{HasFaultWhereWrong};
ghost use Rattle.linear_faults.specs.Holding.{CausesHold};

/// A run has a fault exactly where it is wrong.
pub fn wrong_has_a_fault()
    ensures { HasFaultWhereWrong }
{}

/// The cause of each state whose step has no answer holds in that state.
pub fn causes_hold()
    ensures { CausesHold }
{}
