ghost use Rattle.std.specs.Prelude.{ℕ};
ghost use Rattle.farm_nodes_crash.specs.Again.{HeardIsLearnedAgain, LearnedAgain};
ghost use Rattle.farm_nodes_crash.specs.Meeting.{NeighboursHearAll, NodesThatHeardRest};
ghost use Rattle.farm_nodes_crash.specs.Stand.{LeftJournalsStand, LeftRoomsStand, MetNodesRest, OpenedRoomsStand};

use alloc_check::Alloc;
use constprop_check::ConstProp;
use cse_check::Cse;
use durable_pair::Pair;
use linearize_check::Linearize;
use offers::one_text;
use paxos_core_world::quorum::Quorums;

/// What a crash of all nodes of a farm leaves on their pairs of disks; it does nothing.
pub fn left_by_all<P: Pair>(quorums: Quorums)
    // A farm that opens over that is refused neither with 401 to 404, but for want of memory or where a device fails, nor with 301,
    ensures journals { LeftJournalsStand P.Disk P.Pair.own quorums }

    // nor with 510, where the nodes rest in each room,
    ensures rooms { LeftRoomsStand P.Disk P.Pair.own quorums }

    // as they do where one has heard of all in meetings, and all of it again: behind any turns on threads that have come back, failures and
    // restarts;
    ensures met { MetNodesRest P.Disk P.Pair.own quorums }

    // nor right after it has opened.
    ensures opened { OpenedRoomsStand P.Disk P.Pair.own quorums }

    // What was learned is learned again, also what the one has learned that has heard of all in meetings.
    ensures learned { LearnedAgain P.Disk P.Pair.own quorums }
    ensures heard { HeardIsLearnedAgain P.Disk P.Pair.own quorums }
{
    let _count = quorums.nodes();
    one_text::<ConstProp>();
    one_text::<Cse>();
    one_text::<Alloc>();
    one_text::<Linearize>();
}

/// What holds of nodes of a farm that have heard of one another in meetings; it does nothing.
pub fn rest_of_met(quorums: Quorums)
    // Where one hears of all, and all of it again, they rest in each room as they were before the first of these meetings, which leave their
    // journals as they are.
    ensures rest { (functions : ℕ) → NodesThatHeardRest quorums functions }

    // So it is where each two neighbours meet, from the first node to the last, and again on the way back.
    ensures neighbours { (functions : ℕ) → NeighboursHearAll quorums functions }
{
    let _count = quorums.nodes();
}
