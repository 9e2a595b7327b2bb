//! Leading a room: proposing, and starting a ballot now and then.

ghost use Rattle.std.specs.Prelude.{◌≡◌, ◌||◌, ℕ, None, IfOk, IfErr, OnOk};
ghost use Rattle.rand_pcg.specs.Pcg.{pcg32};
ghost use Rattle.acceptor_log.specs.Acknowledged.{IsSound};
ghost use Rattle.rooms_seat_state.specs.declared.act.SeatAct.TheVariants as asked;
ghost use Rattle.rooms_seat_state.specs.Would.{would};
ghost use Rattle.farm_nodes_turn_step.specs.Noted.{IsActAmong};
ghost use Rattle.farm_nodes_turn_step.specs.Served.{IsServed};
ghost use Rattle.farm_nodes_turn_step.specs.Quiet.{IsQuiet};
ghost use Rattle.farm_nodes_turn_leading.specs.Acting.{LogsActs, MayStopFor};
ghost use Rattle.farm_nodes_turn_leading.specs.Leading.{may_start, is_passed, LeadsByLot, LeavesAll, StartsByLot};
ghost use Rattle.farm_nodes_turn_leading.specs.Leading.{drawn_to_lead, DrawsOneOrNone};

use acceptor_log::Log;
use durable_model::Disk;
use farm_nodes_turn_order::WordSeat;
use farm_nodes_turn_step::{Stop, act};
use rand_core::utils::NextWord;
use rand_pcg::Pcg32;
use rooms_seat_state::act::SeatAct;

/// Proposes, and starts a ballot where the node may and the next word of its generator is 0 modulo 4. Answers whether it
/// took a step. The word is drawn only where the node may start.
pub fn lead<D: Disk>(
    log: &mut Log<D>,
    seat: &mut WordSeat,
    room: u16,
    draws: &mut Pcg32,
) -> Result<bool, Stop>
    requires { IsSound D.Disk log.old }
    ensures served { IsServed D.Disk log.old log.new }
    ensures going { IfOk result (λ moved. log.new.going ≡ log.old.going) }
    ensures leaves { LeavesAll seat.old seat.new }

    // What stands after it: nothing is left to propose, what was quiet is quiet, and the node has started if it was to.
    ensures proposed { OnOk result (would seat.new asked.Propose ≡ None) }
    ensures quiet { (j : ℕ) → IsQuiet j seat.old → IsQuiet j seat.new }
    ensures led { OnOk result (LeadsByLot (pcg32 draws.old).0 seat.old seat.new) }

    // It starts no ballot without cause, and draws a word where it might start, else none.
    ensures started { StartsByLot (pcg32 draws.old).0 seat.old seat.new }
    ensures drawn { OnOk result (draws.new ≡ drawn_to_lead draws.old seat.old seat.new) }
    ensures once { DrawsOneOrNone draws.old draws.new }

    ensures acting { IfErr result (λ stop. IsActAmong seat.new.node.quorums.nodes stop.pending) }
    ensures journal { LogsActs D.Disk log.old log.new room seat.old seat.new result }
    ensures cause { MayStopFor D.Disk log.old log.new room seat.new result }
{
    let proposed = match act(log, seat, room, SeatAct::Propose) {
        Ok(proposed) => proposed,
        Err(stop) => return Err(stop),
    };
    if !may_start(seat) {
        return Ok(proposed);
    }
    if draws.next_word() % 4 != 0 {
        return Ok(proposed);
    }
    match act(log, seat, room, SeatAct::Start) {
        Ok(started) => Ok(either(proposed, started)),
        Err(stop) => Err(stop),
    }
}

/// Whether the node may start a ballot.
fn may_start(seat: &WordSeat) -> bool
    ensures { result ≡ may_start seat.now.node }
{
    let kept = seat.kept();
    kept.offered() && seat.learned().is_none() && is_passed(seat.ballot(), kept.promised())
}

/// Whether the ballot under way, if there is one, is below the promised one.
fn is_passed(under_way: Option<u16>, promised: u16) -> bool
    ensures { result ≡ is_passed under_way promised }
{
    match under_way {
        None => true,
        Some(ballot) => ballot < promised,
    }
}

/// Whether it took a step in one or the other.
pub(crate) fn either(first: bool, second: bool) -> bool
    ensures { result ≡ (first || second) }
{
    first || second
}
