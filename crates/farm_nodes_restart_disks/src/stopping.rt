//! What a node had not done when it was stopped.

ghost use Rattle.std.specs.Prelude.{◌≡◌};
ghost use Rattle.farm_nodes_restart_disks.specs.Stopped.{left_by, room_in, told_as};

use farm_nodes_restart_seat::{Fault, Halt, RestartFault};
use farm_nodes_turn_node::Halted;
use farm_nodes_turn_step::Pending;

/// The room in which a node was stopped, and what it has not done there.
pub(crate) fn unfinished(halted: Option<Halted>) -> (u16, Option<Pending>)
    ensures room { result.0 ≡ room_in halted }
    ensures pending { result.1 ≡ left_by halted }
{
    let Some(halted) = halted else {
        return (0, None);
    };
    let Halted { room, halt } = halted;
    let Halt { pending, .. } = halt;
    (room, pending)
}

/// The fault that a node tells of a refused restart.
pub(crate) fn told(fault: RestartFault) -> Fault
    ensures { result ≡ told_as fault }
{
    match fault {
        RestartFault::NoMemory => Fault::NoMemory,
        RestartFault::Journal(error) => Fault::Journal(error),
        RestartFault::OtherRecords => Fault::OtherRecords,
        RestartFault::CellRefused => Fault::CellRefused,
    }
}
