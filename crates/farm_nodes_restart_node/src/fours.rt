//! A node's seats in the four rooms of a function come back.

ghost use Rattle.std.specs.Prelude.{◌≡◌, IfErr, OnOk, OnErr};
ghost use Rattle.farm_nodes_restart_records.specs.Fours.{four_of};
ghost use Rattle.farm_nodes_restart_seat.specs.Taken.{IsTakeFault};
ghost use Rattle.farm_nodes_restart_node.specs.Returned.{HaveForgotten};
ghost use Rattle.farm_nodes_restart_node.specs.Seats.{IsPendingWith, TookWith};

use farm_nodes_restart_records::{NumberedSeat, Which};
use farm_nodes_restart_seat::{RestartFault, forget, take};
use farm_nodes_turn_step::Pending;
use rooms_hall::Naming;
use std::alloc::Global;

/// Does what is pending in the room, which is the one of this pass.
pub(crate) fn take_in<H: Naming>(
    alloc: Global,
    numbered: &mut NumberedSeat<H>,
    pass: Which,
    room: u16,
    pending: &Pending,
) -> Result<(), RestartFault>
    requires { IsPendingWith numbered.old room pass pending.now }
    ensures ok { OnOk result (TookWith room pass pending.now numbered.old numbered.new) }
    ensures err { OnErr result (four_of numbered.new ≡ four_of numbered.old) }
    ensures faults { IfErr result (IsTakeFault pending.now) }
{
    match pass {
        Which::Constants => take(alloc, &mut numbered.seat.first, room, pending),
        Which::Expressions => take(alloc, &mut numbered.seat.second, room, pending),
        Which::Allocation => take(alloc, &mut numbered.seat.third, room, pending),
        Which::Order => take(alloc, &mut numbered.seat.fourth, room, pending),
    }
}

/// All four forget.
pub(crate) fn forget_in<H: Naming>(numbered: &mut NumberedSeat<H>)
    ensures { HaveForgotten (four_of numbered.old) (four_of numbered.new) }
{
    forget(&mut numbered.seat.first);
    forget(&mut numbered.seat.second);
    forget(&mut numbered.seat.third);
    forget(&mut numbered.seat.fourth);
}
