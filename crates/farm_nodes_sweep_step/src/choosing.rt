//! The step that a node takes next in a room.

ghost use Rattle.std.specs.Prelude.{◌≡◌, IfSome, IfNone};
ghost use Rattle.rooms_crash.specs.Would.{IsAmong};
ghost use Rattle.farm_nodes_sweep_step.specs.Next.{asked_of, ballot_of, higher, AreNone, HasNoNext, IsHighest, IsNext};

use farm_nodes_turn_order::WordSeat;
use paxos_core_node_steps::step::Step;
use rooms_crash::act::SeatAct;

/// How a node answers what it has seen of another.
#[derive(Clone, Copy, Debug, PartialEq, Eq)]
pub(crate) enum Answer {
    /// It accepts what that proposes.
    Accept,
    /// It promises the ballot that that has started.
    Promise,
}

impl Answer {
    /// The act by which it answers node `j`.
    fn to(self, j: u8) -> SeatAct
        ensures { result ≡ asked_of self j }
    {
        match self {
            Answer::Accept => SeatAct::Accept(j),
            Answer::Promise => SeatAct::Promise(j),
        }
    }
}

/// The step that the node takes next in the room, where there is one: it accepts under the highest ballot that it may, or else
/// promises the highest, or else proposes, or else starts a ballot, if it is to.
pub fn next_act(seat: &WordSeat, starts: bool) -> Option<SeatAct>
    ensures some { IfSome result (IsNext starts seat.now) }
    ensures among { IfSome result (IsAmong seat.now.node.quorums.nodes) }
    ensures none { IfNone result (HasNoNext starts seat.now) }
{
    if let Some(j) = highest(seat, Answer::Accept) {
        return Some(SeatAct::Accept(j));
    }
    if let Some(j) = highest(seat, Answer::Promise) {
        return Some(SeatAct::Promise(j));
    }
    if seat.intent(SeatAct::Propose).is_some() {
        return Some(SeatAct::Propose);
    }
    if starts && seat.intent(SeatAct::Start).is_some() {
        return Some(SeatAct::Start);
    }
    None
}

/// The node to which the answer has the highest ballot, of those to which there is one.
fn highest(seat: &WordSeat, answer: Answer) -> Option<u8>
    ensures some { IfSome result (IsHighest (asked_of answer) seat.now.node.quorums.nodes seat.now) }
    ensures none { IfNone result (AreNone (asked_of answer) seat.now.node.quorums.nodes seat.now) }
{
    let mut best = None;
    for j in 0..seat.count() {
        best = higher(best, j, seat.intent(answer.to(j)));
    }
    match best {
        Some((j, _)) => Some(j),
        None => None,
    }
}

/// The one with the higher ballot, of the best so far and node `j`'s step.
fn higher(best: Option<(u8, u16)>, j: u8, step: Option<Step>) -> Option<(u8, u16)>
    ensures { result ≡ higher best j step }
{
    let Some(step) = step else {
        return best;
    };
    let ballot = ballot_of(step);
    match best {
        Some((_, above)) if ballot <= above => best,
        _ => Some((j, ballot)),
    }
}

/// The ballot of a step.
fn ballot_of(step: Step) -> u16
    ensures { result ≡ ballot_of step }
{
    match step {
        Step::Start(ballot) | Step::Promise(ballot) => ballot,
        Step::Propose(ballot, _) | Step::Accept(ballot, _) => ballot,
    }
}
