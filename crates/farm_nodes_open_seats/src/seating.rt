ghost use Rattle.std.specs.Prelude.{◌≡◌, ◌<◌, ℕ, length, IfOk, IfErr};
ghost use Rattle.farm_nodes_open_rooms.specs.Kept.{AreSettled};
ghost use Rattle.farm_nodes_open_lists.specs.Rows.{rows_of};
ghost use Rattle.farm_nodes_open_seats.specs.Seated.{AreKeptIn, AreSeated};
ghost use Rattle.farm_nodes_open_seats.specs.Refused.{TellsOffer, TellsRecords, TellsRoom};

use crate::fault::OpenFault;
use acceptor_log::Log;
use acceptor_log_form::Record;
use constprop_check::ConstProp;
use farm_nodes_open_rooms::{NumberedSeat, open_functions};
use farm_nodes_open_stored::{Alloc, Cse, Linearize, known_is_kept, stored_nodes};
use paxos_core_world::kept::Kept;
use paxos_core_world::quorum::Quorums;
use rooms_hall::{Hall, Naming};
use std::alloc::Global;
use std::sync::Wait;
use std::thread::Threads;

/// What each node has kept of each room of so many functions, and the seats of the nodes in them, from what stands in their journals. That
/// the records are in order and the offers are offers comes first, then that the passes accept them, then the rooms; the first fault is told.
pub fn rooms_of<J, H: Naming, R: Threads + Wait + Sync>(
    rt: &R,
    alloc: Global,
    hall: &Hall<H>,
    digest: &[u8; 32],
    functions: u16,
    workers: usize,
    journals: &[(J, Vec<Record>)],
    quorums: Quorums,
) -> Result<(Vec<Vec<Kept>>, Vec<Vec<NumberedSeat<H>>>), OpenFault>
    requires size { length journals.now ≡ quorums.nodes }
    requires functions { functions < 16384 }
    requires workers { 0 < workers }
    ensures kept { IfOk result (λ found. AreKeptIn functions journals.now found.0.items) }
    ensures settled { IfOk result (λ found. (f : ℕ) → f < functions → AreSettled quorums found.0.items f) }
    ensures seated { IfOk result (λ found. AreSeated quorums functions journals.now (rows_of found.1.items)) }
    ensures bad { IfErr result (TellsRecords functions journals.now) }
    ensures refused { IfErr result (TellsOffer functions journals.now) }
    ensures unopened { IfErr result (λ told. TellsRoom functions journals.now told quorums) }
{
    let _nodes = quorums.nodes();
    let found = stored_nodes::<J, R>(rt, alloc, digest, functions, workers, journals);
    let (kept, offers) = match found {
        Ok(found) => found,
        Err(bad) => return Err(OpenFault::of_records(bad.node, bad.fault)),
    };
    known_is_kept::<ConstProp>();
    known_is_kept::<Cse>();
    known_is_kept::<Alloc>();
    known_is_kept::<Linearize>();
    match open_functions(alloc, hall, kept.as_slice(), functions, offers, quorums) {
        Ok(seats) => Ok((kept, seats)),
        Err(unopened) => Err(OpenFault::of_room(unopened.room, unopened.fault)),
    }
}

/// The seats alone, as `rooms_of` opens them.
pub fn seats_of<D, H: Naming, R: Threads + Wait + Sync>(
    rt: &R,
    alloc: Global,
    hall: &Hall<H>,
    digest: &[u8; 32],
    functions: u16,
    workers: usize,
    journals: &[(Log<D>, Vec<Record>)],
    quorums: Quorums,
) -> Result<Vec<Vec<NumberedSeat<H>>>, OpenFault>
    requires size { length journals.now ≡ quorums.nodes }
    requires functions { functions < 16384 }
    requires workers { 0 < workers }
    ensures seated { IfOk result (λ seats. AreSeated quorums functions journals.now (rows_of seats.items)) }
    ensures bad { IfErr result (TellsRecords functions journals.now) }
    ensures refused { IfErr result (TellsOffer functions journals.now) }
    ensures unopened { IfErr result (λ told. TellsRoom functions journals.now told quorums) }
{
    match rooms_of::<Log<D>, H, R>(
        rt, alloc, hall, digest, functions, workers, journals, quorums,
    ) {
        Ok((_kept, seats)) => Ok(seats),
        Err(fault) => Err(fault),
    }
}
