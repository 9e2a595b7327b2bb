ghost use Rattle.std.specs.Prelude.{◌≡◌, ◌≢◌, ◌<◌, ◌≤◌, ◌++◌, ◌∷◌, [], length, IfOk, OnOk, IfErr};
ghost use Rattle.farm_nodes_open_stored.specs.Nodes.{AreMade};
ghost use Rattle.farm_nodes_open_stored.specs.Read.{AreKeptIn, HasBadPart, IsKeptPart, IsStoredPart, WereRead};

use crate::one::{StoredOf, stored_of_node};
use acceptor_log_form::{Header, Record};
use farm_nodes_open_offers::RecordFault;
use lang_base::NoMemory;
use paxos_core_world::kept::Kept;
use std::alloc::Global;

/// The first node whose records or offers are refused.
#[derive(Clone, Copy, Debug, PartialEq, Eq)]
pub struct BadNode {
    pub node: u8,
    pub fault: RecordFault,
}

/// What was read of one node more.
fn put<A: Drop, B: Drop>(
    kept: &mut Vec<A>,
    stored: &mut Vec<B>,
    read: (A, B),
) -> Result<(), NoMemory>
    ensures kept { OnOk result (kept.new.items ≡ kept.old.items ++ read.0 ∷ []) }
    ensures stored { OnOk result (stored.new.items ≡ stored.old.items ++ read.1 ∷ []) }
{
    let (parts, offers) = read;
    if kept.push(parts).is_err() || stored.push(offers).is_err() {
        return Err(NoMemory);
    }
    Ok(())
}

/// Of each node what it has kept of each room of so many functions, and the offers among its records, whether their passes accept them
/// or not. The first node in order is told whose records are out of order, or one of which is no offer.
pub(crate) fn read_nodes<J>(
    alloc: Global,
    digest: &[u8; 32],
    functions: u16,
    journals: &[(J, Vec<Record>)],
) -> Result<(Vec<Vec<Kept>>, Vec<StoredOf>), BadNode>
    requires nodes { length journals.now ≤ 255 }
    requires functions { functions < 16384 }
    ensures kept { IfOk result (λ read. AreKeptIn functions journals.now read.0.items) }
    ensures stored { IfOk result (λ read. AreMade IsStoredPart journals.now (length journals.now) read.1.items) }

    // What is refused stands in the records of the node that is told, and those in front of it were read.
    ensures bad { IfErr result (λ it. it.fault ≢ RecordFault.NoMemory → it.fault ≡ RecordFault.BadRecord) }
    ensures refused { IfErr result (λ it. it.fault ≢ RecordFault.NoMemory
        → HasBadPart functions journals.now it.node) }
    ensures in_front { IfErr result (λ it. WereRead functions journals.now it.node) }
{
    let count = journals.len() as u8;
    let mut kept = Vec::new(alloc);
    let mut stored = Vec::new(alloc);
    for node in 0..count {
        // The order of its records does not ask for the sizes of the quorums.
        let header = Header {
            nodes: count,
            promise: count,
            accept: count,
            node,
            digest: *digest,
        };
        let records = journals[usize::from(node)].1.as_slice();
        match stored_of_node(alloc, &header, functions, records) {
            Ok(read) => match put(&mut kept, &mut stored, read) {
                Ok(()) => {}
                Err(NoMemory) => {
                    return Err(BadNode {
                        node,
                        fault: RecordFault::NoMemory,
                    });
                }
            },
            Err(fault) => return Err(BadNode { node, fault }),
        }
    }
    Ok((kept, stored))
}
