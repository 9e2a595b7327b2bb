//! A node comes back over a disk.

ghost use Rattle.std.specs.Prelude.{◌≡◌, ◌<◌, ◌≤◌, ◌*◌, ◌↔◌, length, true, Some, IsSome, IfOk, IfErr, OnOk, OnErr};
ghost use Rattle.durable_model.specs.Honest.{Unchanged};
ghost use Rattle.durable_model.specs.Moments.{LeavesOnly};
ghost use Rattle.acceptor_log_form.specs.Order.{AreInOrder};
ghost use Rattle.acceptor_log_form.specs.Text.{StandsFor};
ghost use Rattle.acceptor_log.specs.Acknowledged.{acknowledged, IsSound};
ghost use Rattle.farm_nodes_restart_records.specs.Fours.{fours_of};
ghost use Rattle.farm_nodes_restart_records.specs.Pending.{HavePending};
ghost use Rattle.farm_nodes_restart_seat.specs.Taken.{IsTakeFault};
ghost use Rattle.farm_nodes_restart_seat.specs.Places.{AllChanged, ChangedAt};
ghost use Rattle.farm_nodes_restart_node.specs.Back.{CameBackBy, CountsFailures, HasInOrder, HoldBack, StaysOut};
ghost use Rattle.farm_nodes_restart_node.specs.Back.{disk_given, fault_given};
ghost use Rattle.farm_nodes_restart_node.specs.Returned.{AreAtRest, HaveForgotten, IsPendingFault};
ghost use Rattle.farm_nodes_restart_node.specs.Seats.{AreTaken, HaveComeBack, HaveStepped};

use crate::fours::{forget_in, take_in};
use acceptor_log::Log;
use acceptor_log_form::{Header, Record};
use durable_model::Disk;
use farm_nodes_restart_records::{Found, NumberedSeat, Which, find};
use farm_nodes_restart_seat::RestartFault;
use farm_nodes_turn_step::Pending;
use rooms_hall::Naming;
use std::alloc::Global;

/// A node comes back over the journal on a disk. `pending` is what the node was about to do in the room when it halted, if
/// anything. Where its record stands last, it is done; then all seats forget. Where the node does not come back, the disk
/// does, and the seats are as they were.
pub fn come_back<D: Disk, H: Naming>(
    alloc: Global,
    disk: D,
    header: &Header,
    seats: &mut Vec<NumberedSeat<H>>,
    room: u16,
    pending: &Option<Pending>,
) -> Result<Log<D>, (D, RestartFault)>
    requires nodes { 0 < header.now.nodes }
    requires rooms { 4 * length seats.old.items ≤ 65535 }
    requires pending { HavePending seats.old.items room pending.now }

    // The journal goes on, and has acknowledged just the records over which the seats came back.
    ensures sound { IfOk result (IsSound D.Disk) }
    ensures ok { IfOk result (λ log. (log.going ≡ true) × (log.header ≡ header.now)) }
    ensures honest { D.is_honest (disk_given result) ↔ D.is_honest disk }
    ensures listed { D.is_honest disk
        → IfOk result (λ log. StandsFor header.now (acknowledged D.seen log) (D.seen disk)) }
    ensures in_order { D.is_honest disk
        → IfOk result (HasInOrder D.seen header.now (4 * length seats.old.items)) }
    ensures seats { D.is_honest disk
        → IfOk result (CameBackBy D.seen room pending.now seats.old.items seats.new.items) }

    ensures rest { OnOk result (AreAtRest (fours_of seats.old.items) (fours_of seats.new.items)) }

    // The disk is as it was, and a crash meanwhile leaves what it might have left before.
    ensures unchanged { D.is_honest disk → Unchanged D.seen D.may_leave disk (disk_given result) }
    ensures any_moment { D.is_honest disk
        → LeavesOnly D.moment D.left_since disk (disk_given result) (D.may_leave disk) }
    ensures err { OnErr result (fours_of seats.new.items ≡ fours_of seats.old.items) }
    ensures count { length seats.new.items ≡ length seats.old.items }

    // It does not give up by itself, and no failure of the device is missed.
    ensures refused { D.is_honest disk
        → IfErr result (StaysOut header.now seats.old.items room pending.now (D.seen disk)) }
    ensures failures { CountsFailures (D.faults disk) (D.faults (disk_given result)) (fault_given result) }
{
    match Log::open(alloc, disk, header) {
        Ok(opened) => {
            let (log, records) = opened;
            match return_over(alloc, header, seats, room, pending, records.as_slice()) {
                Ok(()) => Ok(log),
                Err(fault) => Err((log.into_disk(), fault)),
            }
        }
        Err(refused) => {
            let (disk, error) = refused;
            Err((disk, RestartFault::of(error)))
        }
    }
}

/// The seats come back over these records.
fn return_over<H: Naming>(
    alloc: Global,
    header: &Header,
    seats: &mut Vec<NumberedSeat<H>>,
    room: u16,
    pending: &Option<Pending>,
    records: &[Record],
) -> Result<(), RestartFault>
    requires nodes { 0 < header.now.nodes }
    requires rooms { 4 * length seats.old.items ≤ 65535 }
    requires pending { HavePending seats.old.items room pending.now }
    ensures seats { OnOk result (HaveComeBack room pending.now records.now seats.old.items seats.new.items) }
    ensures in_order { OnOk result
        (AreInOrder header.now.nodes header.now.node (4 * length seats.old.items) records.now) }
    ensures err { OnErr result (fours_of seats.new.items ≡ fours_of seats.old.items) }
    ensures count { length seats.new.items ≡ length seats.old.items }
    ensures refused { IfErr result (HoldBack header.now seats.old.items room pending.now records.now) }
{
    match step_over(alloc, header, seats, room, pending, records) {
        Ok(()) => {
            forget_all(seats);
            Ok(())
        }
        Err(fault) => Err(fault),
    }
}

/// What is pending is done, where its record stands last.
fn step_over<H: Naming>(
    alloc: Global,
    header: &Header,
    seats: &mut Vec<NumberedSeat<H>>,
    room: u16,
    pending: &Option<Pending>,
    records: &[Record],
) -> Result<(), RestartFault>
    requires nodes { 0 < header.now.nodes }
    requires rooms { 4 * length seats.old.items ≤ 65535 }
    requires pending { HavePending seats.old.items room pending.now }
    ensures stepped { OnOk result (HaveStepped room pending.now records.now seats.old.items seats.new.items) }
    ensures in_order { OnOk result
        (AreInOrder header.now.nodes header.now.node (4 * length seats.old.items) records.now) }
    ensures err { OnErr result (fours_of seats.new.items ≡ fours_of seats.old.items) }
    ensures count { length seats.new.items ≡ length seats.old.items }
    ensures refused { IfErr result (HoldBack header.now seats.old.items room pending.now records.now) }
{
    match find(alloc, header, seats, room, pending, records) {
        Ok(Found::Pending) => take_pending(alloc, seats, room, pending),
        Ok(Found::Whole) => Ok(()),
        Ok(Found::Neither) => Err(RestartFault::OtherRecords),
        Err(error) => Err(RestartFault::of(error)),
    }
}

/// Does what is pending.
fn take_pending<H: Naming>(
    alloc: Global,
    seats: &mut Vec<NumberedSeat<H>>,
    room: u16,
    pending: &Option<Pending>,
) -> Result<(), RestartFault>
    requires pending { HavePending seats.old.items room pending.now }
    requires some { IsSome pending.now }
    ensures ok { OnOk result (AreTaken room pending.now seats.old.items seats.new.items) }
    ensures err { OnErr result (fours_of seats.new.items ≡ fours_of seats.old.items) }
    ensures count { length seats.new.items ≡ length seats.old.items }
    ensures faults { IfErr result (IsPendingFault pending.now) }
{
    let Some(pending) = pending else {
        unreachable!();
    };
    take_at(alloc, seats, room, pending)
}

/// Does this, which is pending in the room.
fn take_at<H: Naming>(
    alloc: Global,
    seats: &mut Vec<NumberedSeat<H>>,
    room: u16,
    pending: &Pending,
) -> Result<(), RestartFault>
    requires { HavePending seats.old.items room (Some pending.now) }
    ensures ok { OnOk result (AreTaken room (Some pending.now) seats.old.items seats.new.items) }
    ensures err { OnErr result (fours_of seats.new.items ≡ fours_of seats.old.items) }
    ensures count { length seats.new.items ≡ length seats.old.items }
    ensures faults { IfErr result (IsTakeFault pending.now) }
{
    let Some(four) = seats.get_mut(usize::from(room / 4)) else {
        unreachable!();
    };
    take_in(alloc, four, Which::of_room(room), room, pending)
}

/// All seats forget.
fn forget_all<H: Naming>(seats: &mut Vec<NumberedSeat<H>>)
    ensures forgot { AllChanged HaveForgotten (fours_of seats.old.items) (fours_of seats.new.items) }
    ensures count { length seats.new.items ≡ length seats.old.items }
{
    for function in 0..seats.len() {
        forget_at(seats, function);
    }
}

/// The seats of one function forget.
fn forget_at<H: Naming>(seats: &mut Vec<NumberedSeat<H>>, function: usize)
    requires { function < length seats.old.items }
    ensures forgot { ChangedAt HaveForgotten function (fours_of seats.old.items) (fours_of seats.new.items) }
    ensures count { length seats.new.items ≡ length seats.old.items }
{
    let Some(four) = seats.get_mut(function) else {
        unreachable!();
    };
    forget_in(four);
}
