//! What a crash leaves of a node's own journal, as the contract of a call that does nothing else.

ghost use Rattle.farm_nodes_restart_records.specs.Own.{OwnAreNoOthers};

/// The records of a crash of the node's own disk are never others: where the list up to some place stands for what the
/// seats keep, and the bytes that are left are between that list and the one with what is pending.
pub fn own_journal()
    ensures { OwnAreNoOthers }
{}
