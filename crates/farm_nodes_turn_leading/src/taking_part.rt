ghost use Rattle.std.specs.Prelude.{◌≡◌, ◌<◌, ℕ, None, IfOk, IfErr, OnOk};
ghost use Rattle.rand_pcg.specs.Pcg.{pcg32};
ghost use Rattle.acceptor_log.specs.Acknowledged.{IsSound};
ghost use Rattle.rooms_seat_state.specs.declared.act.SeatAct.TheVariants as asked;
ghost use Rattle.rooms_seat_state.specs.Would.{would};
ghost use Rattle.farm_nodes_turn_step.specs.Noted.{IsActAmong};
ghost use Rattle.farm_nodes_turn_step.specs.Served.{IsServed};
ghost use Rattle.farm_nodes_turn_step.specs.Quiet.{IsQuiet};
ghost use Rattle.farm_nodes_turn_leading.specs.Acting.{LogsActs, MayStopFor};
ghost use Rattle.farm_nodes_turn_leading.specs.Leading.{drawn_to_lead, DrawsOneOrNone};
ghost use Rattle.farm_nodes_turn_leading.specs.Leading.{LeadsByLot, StartsByLot, StaysInRoom};

use crate::leading::{either, lead};
use acceptor_log::Log;
use durable_model::Disk;
use farm_nodes_turn_order::WordSeat;
use farm_nodes_turn_step::{Stop, hear_all};
use rand_pcg::Pcg32;

/// Hears every node, and then leads. Answers whether it took a step.
pub fn take_part<D: Disk>(
    log: &mut Log<D>,
    seat: &mut WordSeat,
    room: u16,
    draws: &mut Pcg32,
) -> Result<bool, Stop>
    requires { IsSound D.Disk log.old }
    ensures served { IsServed D.Disk log.old log.new }
    ensures going { IfOk result (λ moved. log.new.going ≡ log.old.going) }
    ensures remains { StaysInRoom seat.old seat.new }

    // Nothing is left to accept, to promise or to propose, and it has led if it was to.
    ensures quiet { OnOk result ((j : ℕ) → j < seat.new.node.quorums.nodes → IsQuiet j seat.new) }
    ensures proposed { OnOk result (would seat.new asked.Propose ≡ None) }
    ensures led { OnOk result (LeadsByLot (pcg32 draws.old).0 seat.old seat.new) }

    // It starts no ballot without cause, and draws a word where it might start, else none.
    ensures started { StartsByLot (pcg32 draws.old).0 seat.old seat.new }
    ensures drawn { OnOk result (draws.new ≡ drawn_to_lead draws.old seat.old seat.new) }
    ensures once { DrawsOneOrNone draws.old draws.new }

    ensures acting { IfErr result (λ stop. IsActAmong seat.new.node.quorums.nodes stop.pending) }
    ensures journal { LogsActs D.Disk log.old log.new room seat.old seat.new result }
    ensures cause { MayStopFor D.Disk log.old log.new room seat.new result }
{
    let heard = match hear_all(log, seat, room) {
        Ok(heard) => heard,
        Err(stop) => return Err(stop),
    };
    match lead(log, seat, room, draws) {
        Ok(led) => Ok(either(heard, led)),
        Err(stop) => Err(stop),
    }
}
