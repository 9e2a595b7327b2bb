//! What a crash leaves of a node's own journal, as the contract of a call that does nothing else.

ghost use Rattle.farm_nodes_restart_disks.specs.OwnDisk.{LeavesInOrder, LeavesNoOthers};

use durable_model::Disk;

/// What a crash leaves of a sound node's own disk never holds other records than the node's, nor records out of order: so it
/// is behind each turn, and behind one that failed.
pub fn own_disk<D: Disk>()
    ensures in_order { LeavesInOrder D.Disk }
    ensures others { LeavesNoOthers D.Disk }
{}
