//! A node is restarted over a pair of disks.

ghost use Rattle.std.specs.Prelude.{◌≡◌, ◌<◌, ◌≤◌, ◌*◌, length, IfOk, IfErr};
ghost use Rattle.farm_nodes_turn_node.specs.Asked.{MayBeAsked};
ghost use Rattle.farm_nodes_restart_node.specs.Back.{CountsFailures};
ghost use Rattle.farm_nodes_restart_disks.specs.OverPair.{ShowsOnly};
ghost use Rattle.farm_nodes_restart_disks.specs.Restarted.{fault_told, node_of, pair_given};
ghost use Rattle.farm_nodes_restart_disks.specs.Restarted.{KeepsItsOwn, NodeComesBack, NodeIsRefused};

use crate::opening::come_back_on;
use crate::stopping::{told, unfinished};
use acceptor_log::at_rest;
use durable_pair::Pair;
use farm_nodes_restart_seat::{Halt, RestartFault};
use farm_nodes_turn_node::{FarmNode, Halted};
use rooms_hall::Naming;

/// Restarts a node over the journal on a pair of disks, whose header has to be that of its own. What it had not done is done where
/// its record stands last there, and then all of its seats forget; it goes on from there. The pair that it was on comes back.
/// A node that is refused is stopped, on its own pair, with the same left to do, and the pair comes back beside it. The old disk is
/// synced before it is read: where an old journal counts there, nothing of the new one is opened, and the refusal is 402.
pub fn restart<P: Pair, O, H: Naming>(
    node: FarmNode<P, O, H>,
    pair: P,
) -> Result<(FarmNode<P, O, H>, P), (FarmNode<P, O, H>, P, RestartFault)>
    requires nodes { 0 < node.log.header.nodes }
    requires rooms { 4 * length node.seats.items ≤ 65535 }
    requires asked { MayBeAsked P.Disk node }

    // The node may be asked in either case, and keeps its program, its optimisers and its generator.
    ensures asked { MayBeAsked P.Disk (node_of result) }
    ensures kept { KeepsItsOwn node (node_of result) }

    // It comes back on the given pair and goes on, or it is refused and stays stopped, on its own.
    ensures back { IfOk result (NodeComesBack P.Disk P.Pair.own node pair) }
    ensures refused { IfErr result (NodeIsRefused P.Disk P.Pair.own node pair) }

    // A crash at any moment shows what it might have shown of the pair before, and no failure of the device is missed.
    ensures any_moment { P.is_whole pair → ShowsOnly P.Disk P.Pair.own pair (pair_given result) }
    ensures failures { CountsFailures (P.faults pair) (P.faults (pair_given result)) (fault_told result) }
{
    let FarmNode {
        alloc,
        log,
        mut seats,
        program,
        oracles,
        draws,
        halted,
    } = node;
    let (room, pending) = unfinished(halted);
    let header = *log.header();
    match come_back_on(alloc, pair, &header, &mut seats, room, &pending) {
        Ok(fresh) => {
            at_rest::<P>();
            let back = FarmNode {
                alloc,
                log: fresh,
                seats,
                program,
                oracles,
                draws,
                halted: None,
            };
            Ok((back, log.into_disk()))
        }
        Err((pair, fault)) => {
            let halt = Halt {
                fault: told(fault),
                pending,
            };
            let refused = FarmNode {
                alloc,
                log,
                seats,
                program,
                oracles,
                draws,
                halted: Some(Halted { room, halt }),
            };
            Err((refused, pair, fault))
        }
    }
}
