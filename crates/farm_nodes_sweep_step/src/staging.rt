//! What a node is about to do in a room, and its doing it.

ghost use Rattle.std.specs.Prelude.{◌≡◌, ℕ, IfSome, IfNone};
ghost use Rattle.rooms_crash.specs.Would.{would, Acted, IsAmong};
ghost use Rattle.farm_nodes_turn_order.specs.Recorded.{record_of};
ghost use Rattle.farm_nodes_sweep_step.specs.Next.{HasNoNext};
ghost use Rattle.farm_nodes_sweep_step.specs.Staged.{HasLooked, IsStaged, Steps};

use crate::choosing::next_act;
use acceptor_log_form::Record;
use farm_nodes_turn_order::WordSeat;
use farm_nodes_turn_step::record_of;
use rooms_crash::act::SeatAct;

/// A step that a node is about to take, and its record.
#[derive(Drop)]
pub struct Staged {
    pub act: SeatAct,
    pub entry: Record,
}

/// Looks at the words of every node, its own too. It takes no step.
pub fn look_all(seat: &mut WordSeat)
    ensures { HasLooked seat.old seat.new }
{
    for j in 0..seat.count() {
        let _proposer = seat.look_proposer(j);
        let _acceptor = seat.look_acceptor(j);
    }
}

/// What the node, which has looked, is about to do in the room, where there is something.
pub fn stage(seat: &WordSeat, room: u16, starts: bool) -> Option<Staged>
    ensures some { IfSome result (IsStaged room starts seat.now) }
    ensures none { IfNone result (HasNoNext starts seat.now) }
{
    let act = match next_act(seat, starts) {
        Some(act) => act,
        None => return None,
    };
    seat.bounds();
    let Some(step) = seat.intent(act) else {
        unreachable!();
    };
    Some(Staged {
        act,
        entry: record_of(room, step),
    })
}

/// Does what it is asked, where that is a step. Its record, in any room, is of just this step.
pub fn take(seat: &mut WordSeat, act: SeatAct)
    requires { IsAmong seat.old.node.quorums.nodes act }
    ensures acted { Acted act seat.old seat.new }
    ensures steps { (room : ℕ) → IfSome (would seat.old act) (λ x. Steps room seat.old seat.new (record_of room x)) }
{
    seat.bounds();
    match act {
        SeatAct::Start => {
            let _ballot = seat.start();
        }
        SeatAct::Promise(j) => {
            let _ballot = seat.promise(j);
        }
        SeatAct::Propose => {
            let _proposal = seat.propose();
        }
        SeatAct::Accept(j) => {
            let _vote = seat.accept(j);
        }
    }
}
