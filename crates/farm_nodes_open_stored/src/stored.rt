ghost use Rattle.std.specs.Prelude.{◌≡◌, ◌<◌, ◌≤◌, length, IfOk, IfErr};
ghost use Rattle.farm_nodes_open_stored.specs.Read.{AllWereRead, AreKeptIn, HasBadPart, WereRead};
ghost use Rattle.farm_nodes_open_stored.specs.Checked.{AreNodesOffers, WasRefusedAt, WereAccepted};

use crate::checking::{OffersOf, checked_nodes};
use crate::reading::{BadNode, read_nodes};
use acceptor_log_form::Record;
use farm_nodes_open_offers::RecordFault;
use paxos_core_world::kept::Kept;
use std::alloc::Global;
use std::sync::Wait;
use std::thread::Threads;

/// What stands in the journals of a farm's nodes: what each has kept of each room of so many functions, and the offers that it made there,
/// which so many threads have checked again. Where records are out of order, or one is no offer, the first node is told, before any is
/// checked; else the first that has an offer which its pass does not accept.
pub fn stored_nodes<J, R: Threads + Wait + Sync>(
    rt: &R,
    alloc: Global,
    digest: &[u8; 32],
    functions: u16,
    workers: usize,
    journals: &[(J, Vec<Record>)],
) -> Result<(Vec<Vec<Kept>>, OffersOf), BadNode>
    requires nodes { length journals.now ≤ 255 }
    requires functions { functions < 16384 }
    requires workers { 0 < workers }
    ensures kept { IfOk result (λ found. AreKeptIn functions journals.now found.0.items) }
    ensures offers { IfOk result (λ found. AreNodesOffers functions journals.now found.1) }

    // The records of the node that is told are out of order, or one is no offer; what stands in those of the nodes in front of it was read.
    ensures bad { IfErr result (λ it. it.fault ≡ RecordFault.BadRecord → HasBadPart functions journals.now it.node) }
    ensures in_front { IfErr result (λ it. WereRead functions journals.now it.node) }

    // Or it has an offer that its pass does not accept; those in front of it have none, and the records of all were read.
    ensures refused { IfErr result (λ it. it.fault ≡ RecordFault.Refused → WasRefusedAt journals.now it.node) }
    ensures all_read { IfErr result (λ it. it.fault ≡ RecordFault.Refused → AllWereRead functions journals.now) }
    ensures accepted { IfErr result (λ it. it.fault ≡ RecordFault.Refused → WereAccepted journals.now it.node) }
{
    let (kept, stored) = match read_nodes::<J>(alloc, digest, functions, journals) {
        Ok(read) => read,
        Err(bad) => return Err(bad),
    };
    match checked_nodes::<R>(rt, alloc, functions, workers, stored) {
        Ok(offers) => Ok((kept, offers)),
        Err(bad) => Err(bad),
    }
}
