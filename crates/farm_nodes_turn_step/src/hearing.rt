//! Hearing the nodes of a room: what they propose is accepted, or else their ballots are promised.

ghost use Rattle.std.specs.Prelude.{◌≡◌, ◌<◌, ℕ, true, IfOk, IfErr, OnOk};
ghost use Rattle.acceptor_log.specs.Acknowledged.{IsSound, WhileGoing};
ghost use Rattle.farm_nodes_turn_step.specs.Noted.{IsActAmong};
ghost use Rattle.farm_nodes_turn_step.specs.Served.{IsServed};
ghost use Rattle.farm_nodes_turn_step.specs.Journalled.{Journalled};
ghost use Rattle.farm_nodes_turn_step.specs.Cause.{StopsFor};
ghost use Rattle.farm_nodes_turn_step.specs.Quiet.{IsQuiet, HasHeard};

use crate::acting::act;
use crate::stop::Stop;
use acceptor_log::Log;
use durable_model::Disk;
use farm_nodes_turn_order::WordSeat;
use rooms_crash::act::SeatAct;

/// Hears every node, its own number too. Answers whether it took a step.
pub fn hear_all<D: Disk>(log: &mut Log<D>, seat: &mut WordSeat, room: u16) -> Result<bool, Stop>
    requires { IsSound D.Disk log.old }
    ensures served { IsServed D.Disk log.old log.new }
    ensures going { IfOk result (λ moved. log.new.going ≡ log.old.going) }
    ensures heard { HasHeard seat.old seat.new }
    ensures quiet { OnOk result ((j : ℕ) → j < seat.new.node.quorums.nodes → IsQuiet j seat.new) }

    // Where it is stopped, it was about to act, and was asked of a node of the room.
    ensures acting { IfErr result (λ stop. IsActAmong seat.new.node.quorums.nodes stop.pending) }
    ensures journal { WhileGoing D.Disk log.old
        (Journalled D.Disk log.old log.new room seat.old seat.new result) }
    ensures cause { log.old.going ≡ true → IfErr result (StopsFor D.Disk log.old log.new room seat.new) }
{
    let mut moved = false;
    for j in 0..seat.count() {
        match hear(log, seat, room, j) {
            Ok(again) => moved = moved || again,
            Err(stop) => return Err(stop),
        }
    }
    Ok(moved)
}

/// Hears node `j`: looks at its proposer, accepts what it proposes or else promises its ballot, and looks at its
/// acceptor. Answers whether it took a step.
pub fn hear<D: Disk>(log: &mut Log<D>, seat: &mut WordSeat, room: u16, j: u8) -> Result<bool, Stop>
    requires sound { IsSound D.Disk log.old }
    requires below { j < seat.old.node.quorums.nodes }
    ensures served { IsServed D.Disk log.old log.new }
    ensures going { IfOk result (λ moved. log.new.going ≡ log.old.going) }
    ensures heard { HasHeard seat.old seat.new }
    ensures quiet { OnOk result (IsQuiet j seat.new) }

    // What was quiet stays so.
    ensures others { OnOk result ((i : ℕ) → i < j → IsQuiet i seat.old → IsQuiet i seat.new) }

    ensures acting { IfErr result (λ stop. IsActAmong seat.new.node.quorums.nodes stop.pending) }
    ensures journal { WhileGoing D.Disk log.old
        (Journalled D.Disk log.old log.new room seat.old seat.new result) }
    ensures cause { log.old.going ≡ true → IfErr result (StopsFor D.Disk log.old log.new room seat.new) }
{
    let _proposer = seat.look_proposer(j);
    let moved = match answer(log, seat, room, j) {
        Ok(moved) => moved,
        Err(stop) => return Err(stop),
    };
    let _acceptor = seat.look_acceptor(j);
    Ok(moved)
}

/// Accepts what node `j` was seen to have proposed or, where it does not, promises the ballot that it was seen to have
/// started.
fn answer<D: Disk>(log: &mut Log<D>, seat: &mut WordSeat, room: u16, j: u8) -> Result<bool, Stop>
    requires sound { IsSound D.Disk log.old }
    requires below { j < seat.old.node.quorums.nodes }
    ensures served { IsServed D.Disk log.old log.new }
    ensures going { IfOk result (λ moved. log.new.going ≡ log.old.going) }
    ensures heard { HasHeard seat.old seat.new }
    ensures quiet { OnOk result (IsQuiet j seat.new) }
    ensures others { OnOk result ((i : ℕ) → i < j → IsQuiet i seat.old → IsQuiet i seat.new) }
    ensures acting { IfErr result (λ stop. IsActAmong seat.new.node.quorums.nodes stop.pending) }
    ensures journal { WhileGoing D.Disk log.old
        (Journalled D.Disk log.old log.new room seat.old seat.new result) }
    ensures cause { log.old.going ≡ true → IfErr result (StopsFor D.Disk log.old log.new room seat.new) }
{
    seat.bounds();
    let moved = match act(log, seat, room, SeatAct::Accept(j)) {
        Ok(moved) => moved,
        Err(stop) => return Err(stop),
    };
    if moved {
        return Ok(true);
    }
    act(log, seat, room, SeatAct::Promise(j))
}
