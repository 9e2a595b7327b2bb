//! The pair of disks that a node comes back over.

ghost use Rattle.std.specs.Prelude.{◌≡◌, ◌≢◌, ◌<◌, ◌≤◌, ◌*◌, ◌↔◌, length, true, Err, IfOk, IfErr, OnOk, OnErr};
ghost use Rattle.durable_model.specs.Honest.{Risen};
ghost use Rattle.durable_pair.specs.Images.{IsSpent};
ghost use Rattle.acceptor_log_form.specs.Text.{StandsFor};
ghost use Rattle.acceptor_log.specs.Acknowledged.{acknowledged, IsSound};
ghost use Rattle.farm_nodes_restart_node.specs.Fours.{fours_of};
ghost use Rattle.farm_nodes_restart_node.specs.Pending.{HavePending};
ghost use Rattle.farm_nodes_restart_node.specs.Back.{CameBackBy, CountsFailures, HasInOrder};
ghost use Rattle.farm_nodes_restart_node.specs.Back.{disk_given, fault_given};
ghost use Rattle.farm_nodes_restart_node.specs.Returned.{AreAtRest};
ghost use Rattle.farm_nodes_open_old.specs.OnPairs.{IsSame, IsShown, IsUntouched, LeavesBoth};
ghost use Rattle.farm_nodes_restart_disks.specs.Cause.{HasCauseBefore};
ghost use Rattle.farm_nodes_restart_disks.specs.OverPair.{ShowsOnly, StaysOutOf};

use acceptor_log::Log;
use acceptor_log_form::{Header, LogError};
use durable_pair::Pair;
use farm_nodes_open_old::{OldDisk, old_disk};
use farm_nodes_restart_node::{NumberedSeat, come_back};
use farm_nodes_restart_seat::RestartFault;
use farm_nodes_turn_step::Pending;
use rooms_hall::Naming;
use std::alloc::Global;

/// A node comes back over the journal on a pair of disks, as it does over one on a disk, where no old one counts.
pub(crate) fn come_back_on<P: Pair, H: Naming>(
    alloc: Global,
    pair: P,
    header: &Header,
    seats: &mut Vec<NumberedSeat<H>>,
    room: u16,
    pending: &Option<Pending>,
) -> Result<Log<P>, (P, RestartFault)>
    requires nodes { 0 < header.now.nodes }
    requires rooms { 4 * length seats.old.items ≤ 65535 }
    requires pending { HavePending seats.old.items room pending.now }

    // The journal goes on, and has acknowledged just the records over which the seats came back.
    ensures sound { IfOk result (IsSound P.Disk) }
    ensures ok { IfOk result (λ log. (log.going ≡ true) × (log.header ≡ header.now)) }
    ensures honest { IfOk result (λ log. P.is_honest log.disk ↔ P.is_whole pair) }
    ensures whole { P.is_whole pair → IfErr result (λ refused. P.is_whole refused.0) }
    ensures spent { P.is_whole pair → IfOk result (λ log. IsSpent (P.old_seen pair)) }
    ensures listed { P.is_whole pair
        → IfOk result (λ log. StandsFor header.now (acknowledged P.seen log) (P.seen pair)) }
    ensures in_order { P.is_whole pair
        → IfOk result (HasInOrder P.seen header.now (4 * length seats.old.items)) }
    ensures seats { P.is_whole pair
        → IfOk result (CameBackBy P.seen room pending.now seats.old.items seats.new.items) }
    ensures rest { OnOk result (AreAtRest (fours_of seats.old.items) (fours_of seats.new.items)) }

    // The pair is as it was, and a crash meanwhile shows what it might have shown before.
    ensures unchanged { P.is_whole pair → IfOk result (λ log. IsShown P.Disk P.Pair.own pair log.disk) }
    ensures untouched { P.is_whole pair → IfErr result (λ refused. IsUntouched P.Disk P.Pair.own pair refused.0) }
    ensures any_moment { P.is_whole pair → ShowsOnly P.Disk P.Pair.own pair (disk_given result) }
    ensures err { OnErr result (fours_of seats.new.items ≡ fours_of seats.old.items) }
    ensures count { length seats.new.items ≡ length seats.old.items }

    // It does not give up by itself, and no failure of the device is missed.
    ensures refused { StaysOutOf P.Disk P.Pair.own pair header.now seats.old.items room pending.now result }
    ensures failures { CountsFailures (P.faults pair) (P.faults (disk_given result)) (fault_given result) }
{
    let mut pair = pair;
    match no_old_journal(alloc, &mut pair) {
        Ok(()) => match come_back(alloc, pair, header, seats, room, pending) {
            Ok(log) => Ok(log),
            Err(refused) => Err(refused),
        },
        Err(fault) => Err((pair, fault)),
    }
}

/// Sees that no old journal counts: the old disk is synced, and then read.
fn no_old_journal<P: Pair>(alloc: Global, pair: &mut P) -> Result<(), RestartFault>
    ensures whole { P.is_whole pair.new ↔ P.is_whole pair.old }
    ensures same { P.is_whole pair.old → IsSame P.Disk P.Pair.own pair.old pair.new }
    ensures any_moment { P.is_whole pair.old → LeavesBoth P.Disk P.Pair.own pair.old pair.new }
    ensures spent { P.is_whole pair.old → OnOk result (IsSpent (P.old_seen pair.old)) }
    ensures honest { P.is_whole pair.old → OnOk result (P.is_honest pair.new) }
    ensures refused { P.is_whole pair.old → IfErr result (HasCauseBefore (P.old_seen pair.old)) }
    ensures failed { result ≡ Err (RestartFault.Journal LogError.Device)
        → Risen (P.faults pair.old) (P.faults pair.new) }
    ensures later { P.faults pair.old ≤ P.faults pair.new }
    ensures unfailed { result ≢ Err (RestartFault.Journal LogError.Device) → P.faults pair.new ≡ P.faults pair.old }
{
    match old_disk(alloc, pair) {
        Ok(OldDisk::Counts) => Err(RestartFault::Journal(LogError::NotAJournal)),
        Ok(OldDisk::Empty) => Ok(()),
        Ok(OldDisk::Spent) => Ok(()),
        Err(error) => Err(RestartFault::of(error)),
    }
}
