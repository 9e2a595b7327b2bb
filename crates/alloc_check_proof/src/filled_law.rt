//! What rows at marked nodes are worth, as the contracts of calls that do nothing else.

ghost use Rattle.alloc_check_proof.specs.Laws.{FilledAreRight, MarkedSuffice};

/// The lists that are told from accepted rows name locations that are there, and are right.
pub fn filled_are_right()
    ensures { FilledAreRight }
{}

/// Where lists of all nodes are right, rows at marked nodes that say the same are enough.
pub fn marked_suffice()
    ensures { MarkedSuffice }
{}
