//! The laws of faults, as the contracts of calls that do nothing else.

ghost use Rattle.c_faults.specs.Causes.{CausesHold};
ghost use Rattle.c_faults.specs.Faults.{HasFaultWhereWrong};

/// A run has a fault exactly where it is wrong, whatever the places are.
pub fn wrong_has_a_fault()
    ensures { HasFaultWhereWrong }
{}

/// The cause of each gap of an expression holds in the state in which it is evaluated.
pub fn causes_hold()
    ensures { CausesHold }
{}
