ghost use Rattle.std.specs.Prelude.{◌<◌, IfOk, IfErr};
ghost use Rattle.farm_nodes_open_offers.specs.Faults.{IsBadRecord};
ghost use Rattle.farm_nodes_open_stored.specs.Read.{AreBad, AreKept, AreStored, HasNoOffer};

use crate::kept::kept_of_node;
use acceptor_log_form::{Header, Record};
use constprop_check::ConstProp;
use cse_check::Cse;
use farm_nodes_open_offers::{Alloc, Passes, RecordFault, Stored, Which, stored_offers};
use linearize_check::Linearize;
use offers::PartsOf;
use paxos_core_world::kept::Kept;
use std::alloc::Global;

/// The offers among the records of a node, pass by pass.
pub(crate) type StoredOf = Passes<
    Stored<PartsOf<ConstProp>>,
    Stored<PartsOf<Cse>>,
    Stored<PartsOf<Alloc>>,
    Stored<PartsOf<Linearize>>,
>;

/// The offers among a node's records, pass by pass, whether the passes accept them or not. Bytes that are no offer of their room's pass
/// are refused.
fn read_node(alloc: Global, records: &[Record]) -> Result<StoredOf, RecordFault>
    ensures stored { IfOk result (AreStored records.now) }
    ensures refused { IfErr result (IsBadRecord (HasNoOffer records.now)) }
{
    let constants = match stored_offers::<ConstProp>(alloc, Which::Constants, records) {
        Ok(found) => found,
        Err(fault) => return Err(fault),
    };
    let expressions = match stored_offers::<Cse>(alloc, Which::Expressions, records) {
        Ok(found) => found,
        Err(fault) => return Err(fault),
    };
    let allocation = match stored_offers::<Alloc>(alloc, Which::Allocation, records) {
        Ok(found) => found,
        Err(fault) => return Err(fault),
    };
    let order = match stored_offers::<Linearize>(alloc, Which::Order, records) {
        Ok(found) => found,
        Err(fault) => return Err(fault),
    };
    Ok(Passes {
        constants,
        expressions,
        allocation,
        order,
    })
}

/// What a node has kept of each room of so many functions, and the offers among its records, whether their passes accept them or not.
/// Records out of order are refused, and bytes that are no offer of their room's pass.
pub(crate) fn stored_of_node(
    alloc: Global,
    header: &Header,
    functions: u16,
    records: &[Record],
) -> Result<(Vec<Kept>, StoredOf), RecordFault>
    requires nodes { 0 < header.now.nodes }
    requires functions { functions < 16384 }
    ensures kept { IfOk result (λ read.
        AreKept functions header.now.nodes header.now.node records.now read.0.items) }
    ensures stored { IfOk result (λ read. AreStored records.now read.1) }
    ensures refused { IfErr result (IsBadRecord
        (AreBad functions header.now.nodes header.now.node records.now)) }
{
    let parts = match kept_of_node(alloc, header, functions, records) {
        Ok(parts) => parts,
        Err(fault) => return Err(fault),
    };
    match read_node(alloc, records) {
        Ok(offers) => Ok((parts, offers)),
        Err(fault) => Err(fault),
    }
}
