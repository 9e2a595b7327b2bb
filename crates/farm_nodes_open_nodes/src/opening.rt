ghost use Rattle.std.specs.Prelude.{◌≡◌, ◌<◌, None, All, length, map, IfOk, IfErr};
ghost use Rattle.std.specs.Arc.{arc_value};
ghost use Rattle.farm_nodes_open_join.specs.FarmNodes.{AllCompile, HasSoundJournal};
ghost use Rattle.farm_nodes_open_join.specs.Waiting.{IsWaiting};
ghost use Rattle.farm_nodes_open_join.specs.Words.{generators};
ghost use Rattle.farm_nodes_open_nodes.specs.Back.{AllComeBack};
ghost use Rattle.farm_nodes_open_nodes.specs.OpenNodes.{HaveJournalsOn, HaveOpenRooms};
ghost use Rattle.farm_nodes_open_nodes.specs.Refused.{TellsJournal, TellsOffer, TellsRoom};

use crate::back::{with_disks, with_refused};
use durable_pair::Pair;
use farm_nodes_open_join::{FarmNode, join_nodes};
use farm_nodes_open_journals::open_journals;
use farm_nodes_open_seats::{OpenFault, seats_of};
use lang_base::Program;
use paxos_core_world::quorum::Quorums;
use rooms_hall::{Hall, Naming};
use rtl_language::Function;
use std::alloc::Global;
use std::sync::{Arc, Wait};
use std::thread::Threads;

/// The nodes of a farm from their pairs of disks, in order, each with the journal on its pair, the seats that come from what stands there, its
/// optimisers, and the generator of the seed and its number; all rooms have these quorums. Journals come first, in the order of the nodes (401 to 404 with the node);
/// then, node by node, that its records are in order and name rooms of the program, and that their offers are offers (403 with the node);
/// then, once all were read, that the passes accept them (301 with the node); then the rooms in order (510, 511 with the room). The first
/// fault is told, and all pairs come back.
pub fn open_nodes<P, O, H, R>(
    rt: &R,
    alloc: Global,
    hall: &Hall<H>,
    digest: &[u8; 32],
    program: &Arc<Program<Function>>,
    pairs: Vec<P>,
    oracles: Vec<O>,
    seed: u64,
    workers: usize,
    quorums: Quorums,
) -> Result<Vec<FarmNode<P, O, H>>, (Vec<P>, OpenFault)>
where
    P: Pair + Drop,
    O: Drop,
    H: Naming,
    R: Threads + Wait + Sync,
    requires size { length pairs.items ≡ quorums.nodes }
    requires oracles { length oracles.items ≡ length pairs.items }
    requires functions { length (arc_value program.now).functions < 16384 }
    requires workers { 0 < workers }

    // Each node has the journal on its pair, its optimisers and its generator; it may be asked, and is not stopped.
    ensures journals { IfOk result (λ nodes.
        HaveJournalsOn P.Disk P.Pair.own quorums digest.now pairs.items nodes.items) }
    ensures oracles { IfOk result (λ nodes. map (λ n. n.oracles) nodes.items ≡ oracles.items) }
    ensures program { IfOk result (λ nodes. AllCompile (arc_value program.now) nodes.items) }
    ensures draws { IfOk result (λ nodes. map (λ n. n.draws) nodes.items ≡ generators seed (length pairs.items)) }
    ensures going { IfOk result (λ nodes. All (λ n. n.halted ≡ None) nodes.items) }
    ensures sound { IfOk result (λ nodes. All (HasSoundJournal P.Disk) nodes.items) }
    ensures waiting { IfOk result (λ nodes. All (λ n. IsWaiting n.seats.items n.halted) nodes.items) }

    // The rooms open from what the journals have acknowledged.
    ensures rooms { IfOk result (λ nodes. HaveOpenRooms P.Disk quorums (arc_value program.now) nodes.items) }

    // All pairs come back, and what is told is the first fault.
    ensures back { IfErr result (λ it. AllComeBack P.Disk P.Pair.own quorums digest.now pairs.items it.0.items) }
    ensures journal { IfErr result
        (TellsJournal P.Disk P.Pair.own quorums digest.now pairs.items (arc_value program.now)) }
    ensures refused { IfErr result
        (TellsOffer P.Disk P.Pair.own quorums digest.now pairs.items (arc_value program.now)) }
    ensures unopened { IfErr result
        (TellsRoom P.Disk P.Pair.own quorums digest.now pairs.items (arc_value program.now)) }
{
    let _nodes = quorums.nodes();
    let functions = program.functions.len() as u16;
    let Ok(back) = Vec::with_capacity(alloc, pairs.len()) else {
        return Err((pairs, OpenFault::NoMemory));
    };
    let journals = match open_journals(alloc, pairs, digest, quorums) {
        Ok(journals) => journals,
        Err(refused) => {
            let fault = OpenFault::of_journal(refused.node, refused.fault);
            return Err((with_refused(back, refused), fault));
        }
    };
    let before = journals.as_slice();
    let seats = match seats_of::<P, H, R>(
        rt, alloc, hall, digest, functions, workers, before, quorums,
    ) {
        Ok(seats) => seats,
        Err(fault) => return Err((with_disks(back, journals), fault)),
    };
    match join_nodes(alloc, journals, seats, program, oracles, seed) {
        Ok(nodes) => Ok(nodes),
        Err(journals) => Err((with_disks(back, journals), OpenFault::NoMemory)),
    }
}
