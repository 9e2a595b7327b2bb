ghost use Rattle.std.specs.Prelude.{◌≡◌, ◌≢◌, ℕ, ◌<◌, ◌≤◌, ◌*◌, All, length, IfOk, OnOk, IfErr};
ghost use Rattle.farm_nodes_turn_passes.specs.declared.which.Which.TheVariants as which;
ghost use Rattle.farm_nodes_open_numbers.specs.Kept.{AreSettled, IsOfferedIn, IsSettledIn};
ghost use Rattle.farm_nodes_open_numbers.specs.Left.{AreLeftIn};
ghost use Rattle.farm_nodes_open_numbers.specs.declared.fault.RoomFault.TheVariants as fault;
ghost use Rattle.farm_nodes_open_lists.specs.Rows.{rows_of};
ghost use Rattle.farm_nodes_open_rooms.specs.Opened.{AreOfferedIn, IsSettledBefore};
ghost use Rattle.farm_nodes_open_rooms.specs.Seats.{OpenAllocation, OpenConstants, OpenExpressions, OpenOrder};

use crate::function::{Offered, open_function};
use farm_nodes_open_lists::{add_each, none_yet};
use farm_nodes_open_numbers::Unopened;
use farm_nodes_turn_passes::NumberedSeat;
use lang_base::NoMemory;
use paxos_core_world::kept::Kept;
use paxos_core_world::quorum::Quorums;
use rooms_hall::{Hall, Naming};
use std::alloc::Global;

/// The seats of the nodes in the rooms of all functions, node by node, each node's in the order of the functions, from what each has kept
/// of each room and the offers of each for each function. All rooms have these quorums. Where a room is not opened it is told, the first
/// in order.
pub fn open_functions<H: Naming>(
    alloc: Global,
    hall: &Hall<H>,
    kept: &[Vec<Kept>],
    functions: u16,
    offers: Offered,
    quorums: Quorums,
) -> Result<Vec<Vec<NumberedSeat<H>>>, Unopened>
    requires number { functions ≤ 16384 }
    requires size { length kept.now ≡ quorums.nodes }
    requires offers1 { AreOfferedIn kept.now which.Constants functions (rows_of offers.constants.items) }
    requires offers2 { AreOfferedIn kept.now which.Expressions functions (rows_of offers.expressions.items) }
    requires offers3 { AreOfferedIn kept.now which.Allocation functions (rows_of offers.allocation.items) }
    requires offers4 { AreOfferedIn kept.now which.Order functions (rows_of offers.order.items) }

    // Each node has seats for each function.
    ensures count { IfOk result (λ nodes. length nodes.items ≡ length kept.now) }
    ensures functions { IfOk result (λ nodes. All (λ row. length row ≡ functions) (rows_of nodes.items)) }

    // In each room they are those of the room as it opens from what was kept of it and offered there.
    ensures constants { IfOk result (λ nodes.
        OpenConstants quorums kept.now functions offers (rows_of nodes.items)) }
    ensures expressions { IfOk result (λ nodes.
        OpenExpressions quorums kept.now functions offers (rows_of nodes.items)) }
    ensures allocation { IfOk result (λ nodes.
        OpenAllocation quorums kept.now functions offers (rows_of nodes.items)) }
    ensures order { IfOk result (λ nodes.
        OpenOrder quorums kept.now functions offers (rows_of nodes.items)) }
    ensures settled { OnOk result ((f : ℕ) → f < functions → AreSettled quorums kept.now f) }

    // What was kept of the rooms in front of the one that is told is settled, and of that one it is not where it is said so.
    ensures room { IfErr result (λ e. e.fault ≢ fault.NoMemory → e.room < 4 * functions) }
    ensures before { IfErr result (λ e. IsSettledBefore quorums kept.now e.room) }
    ensures unsettled { IfErr result (λ e. e.fault ≡ fault.Unsettled → ¬ IsSettledIn quorums kept.now e.room) }
    ensures refused { IfErr result (λ e. e.fault ≡ fault.CellRefused → IsOfferedIn kept.now e.room) }

    // What runs of the rooms have left, as a crash of all nodes may, is never refused so.
    ensures left { AreLeftIn quorums kept.now functions → IfErr result (λ e. e.fault ≢ fault.Unsettled) }
{
    let mut nodes = match none_yet(alloc, kept.len()) {
        Ok(nodes) => nodes,
        Err(NoMemory) => return Err(Unopened::no_memory(0)),
    };
    let mut left = offers;
    for function in 0..functions {
        let seats = match open_function(alloc, hall, kept, function, &mut left, quorums) {
            Ok(seats) => seats,
            Err(unopened) => return Err(unopened),
        };
        match add_each(&mut nodes, seats) {
            Ok(()) => {}
            Err(NoMemory) => return Err(Unopened::no_memory(4 * function)),
        }
    }
    Ok(nodes)
}
