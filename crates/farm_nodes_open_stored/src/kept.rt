ghost use Rattle.std.specs.Prelude.{◌<◌, IfOk, IfErr};
ghost use Rattle.farm_nodes_open_offers.specs.Faults.{IsBadRecord};
ghost use Rattle.farm_nodes_open_stored.specs.Read.{AreKept, AreOutOfOrder};

use acceptor_log_form::{Header, LogError, Record, kept_parts};
use farm_nodes_open_offers::RecordFault;
use paxos_core_world::kept::Kept;
use std::alloc::Global;

/// What a node has kept of each room of so many functions. Records out of order, or in another room, are refused.
pub(crate) fn kept_of_node(
    alloc: Global,
    header: &Header,
    functions: u16,
    records: &[Record],
) -> Result<Vec<Kept>, RecordFault>
    requires nodes { 0 < header.now.nodes }
    requires functions { functions < 16384 }
    ensures kept { IfOk result (λ parts. AreKept functions header.now.nodes header.now.node records.now parts.items) }
    ensures refused { IfErr result (IsBadRecord
        (AreOutOfOrder functions header.now.nodes header.now.node records.now)) }
{
    match kept_parts(alloc, header, 4 * functions, records) {
        Ok(parts) => Ok(parts),
        Err(LogError::NoMemory) => Err(RecordFault::NoMemory),
        Err(_) => Err(RecordFault::BadRecord),
    }
}
