//! One step, its record first.

ghost use Rattle.std.specs.Prelude.{◌≡◌, ◌≢◌, None, true, is_some, IfOk, IfErr, OnErr};
ghost use Rattle.acceptor_log.specs.Acknowledged.{IsSound, WhileGoing};
ghost use Rattle.rooms_crash.specs.Would.{would, Acted, IsAmong};
ghost use Rattle.farm_nodes_turn_step.specs.Noted.{record_of, IsActAmong, IsByte};
ghost use Rattle.farm_nodes_turn_step.specs.Served.{IsServed};
ghost use Rattle.farm_nodes_turn_step.specs.Journalled.{Journalled};
ghost use Rattle.farm_nodes_turn_step.specs.Cause.{StopsFor};
ghost use Rattle.farm_nodes_turn_step.specs.declared.stop.Pending.{Pending as Waiting};

use crate::stop::{Pending, Stop};
use acceptor_log::Log;
use acceptor_log_form::Record;
use durable_model::Disk;
use farm_nodes_turn_order::WordSeat;
use paxos_core_node_steps::step::Step;
use rooms_crash::act::SeatAct;

/// Does what it is asked, where that is a step: puts down its record, and then takes it. Answers whether it took one.
pub fn act<D: Disk>(
    log: &mut Log<D>,
    seat: &mut WordSeat,
    room: u16,
    act: SeatAct,
) -> Result<bool, Stop>
    requires sound { IsSound D.Disk log.old }
    requires among { IsAmong seat.old.node.quorums.nodes act }
    ensures served { IsServed D.Disk log.old log.new }
    ensures ok { IfOk result (λ moved. (moved ≡ is_some (would seat.old act)) × Acted act seat.old seat.new) }
    ensures going { IfOk result (λ moved. log.new.going ≡ log.old.going) }

    // It has not moved where its record may be missing.
    ensures err { OnErr result (seat.new ≡ seat.old) }
    ensures pending { IfErr result (λ stop. (stop.pending ≡ Waiting.Act act) × (would seat.old act ≢ None)) }
    ensures acting { IfErr result (λ stop. IsActAmong seat.new.node.quorums.nodes stop.pending) }

    ensures journal { WhileGoing D.Disk log.old
        (Journalled D.Disk log.old log.new room seat.old seat.new result) }
    ensures cause { log.old.going ≡ true → IfErr result (StopsFor D.Disk log.old log.new room seat.new) }
{
    let Some(step) = seat.intent(act) else {
        return Ok(false);
    };
    seat.bounds();
    match log.append(&record_of(room, step)) {
        Ok(()) => {
            take(seat, act);
            Ok(true)
        }
        Err(error) => Err(Stop {
            error,
            pending: Pending::Act(act),
        }),
    }
}

/// The record of a step.
pub fn record_of(room: u16, step: Step) -> Record
    requires { IsByte step }
    ensures { result ≡ record_of room step }
{
    match step {
        Step::Start(ballot) => Record::Started(room, ballot),
        Step::Promise(ballot) => Record::Promised(room, ballot),
        Step::Propose(ballot, value) => Record::Proposed(room, ballot, (value & 0xff) as u8),
        Step::Accept(ballot, value) => Record::Accepted(room, ballot, value as u8),
    }
}

/// Does what it is asked.
fn take(seat: &mut WordSeat, act: SeatAct)
    requires { IsAmong seat.old.node.quorums.nodes act }
    ensures { Acted act seat.old seat.new }
{
    match act {
        SeatAct::Start => {
            seat.bounds();
            let _ballot = seat.start();
        }
        SeatAct::Promise(j) => {
            let _ballot = seat.promise(j);
        }
        SeatAct::Propose => {
            let _proposal = seat.propose();
        }
        SeatAct::Accept(j) => {
            let _vote = seat.accept(j);
        }
    }
}
