//! A turn of a seat beside the protocol's slow reference: the step that the seat takes is one that the reference allows, and
//! the words that it sees are those that the reference shows.

ghost use Rattle.std.specs.Prelude.{◌<◌};
ghost use Rattle.rooms_seat_state.specs.Would.{IsAmong};

use paxos_core_node_steps::step::Step;
use paxos_core_world::kept::Kept;
use paxos_core_world::msg::Msg;
use paxos_reference::label::Label;
use paxos_reference::world::World;
use rooms_seat::WordSeat;
use rooms_seat_state::act::SeatAct;
use rooms_words::acceptor::AcceptorWord;
use rooms_words::proposer::ProposerWord;

/// What a seat is asked, some of it about another node.
#[derive(Clone, Copy)]
pub enum Turn {
    Forget,
    Offer,
    Start,
    Promise,
    Propose,
    Accept,
    LookProposer,
    LookAcceptor,
}

/// A seat is asked about node `j`; then its node has kept what the reference says, and the last seat sees all words.
pub fn is_as_in(
    seats: &mut [WordSeat],
    world: &mut World,
    place: usize,
    turn: Turn,
    j: u8,
) -> bool {
    let Some(seat) = seats.get_mut(place) else {
        return false;
    };
    if !turns(seat, world, turn, j) || !is_kept(world, place, seat.kept()) {
        return false;
    }
    match seats.last_mut() {
        Some(seat) => sees_all(seat, world),
        None => false,
    }
}

/// Whether a seat that looks at all words sees what the reference shows.
fn sees_all(seat: &mut WordSeat, world: &mut World) -> bool {
    for j in 0..seat.count() {
        let is_proposer = turns(seat, world, Turn::LookProposer, j);
        if !is_proposer || !turns(seat, world, Turn::LookAcceptor, j) {
            return false;
        }
    }
    true
}

/// Whether a node has kept this in the reference.
fn is_kept(world: &World, node: usize, kept: Kept) -> bool {
    match world.nodes.get(node) {
        Some(part) => *part == kept,
        None => false,
    }
}

/// A seat is asked about node `j`.
fn turns(seat: &mut WordSeat, world: &mut World, turn: Turn, j: u8) -> bool {
    if j >= seat.count() {
        return false;
    }
    match turn {
        Turn::Forget => forgets(seat, world),
        Turn::Offer => offers(seat, world),
        Turn::Start => acts(seat, world, SeatAct::Start),
        Turn::Promise => acts(seat, world, SeatAct::Promise(j)),
        Turn::Propose => acts(seat, world, SeatAct::Propose),
        Turn::Accept => acts(seat, world, SeatAct::Accept(j)),
        Turn::LookProposer => looks_at_proposer(seat, world, j),
        Turn::LookAcceptor => looks_at_acceptor(seat, world, j),
    }
}

/// Takes the step in the reference, where it is allowed there.
fn takes(world: &mut World, label: Label) -> bool {
    world.allows(&label) && world.take(&label).is_ok()
}

fn forgets(seat: &mut WordSeat, world: &mut World) -> bool {
    let _found = seat.forget();
    takes(world, Label::Restarts(seat.me()))
}

/// A node offers once.
fn offers(seat: &mut WordSeat, world: &mut World) -> bool {
    if seat.kept().offered() {
        return true;
    }
    seat.offer();
    takes(world, Label::Offers(seat.me()))
}

/// Asks the seat for the step: what it took is what it told.
fn acts(seat: &mut WordSeat, world: &mut World, act: SeatAct) -> bool
    requires { IsAmong seat.old.node.quorums.nodes act }
{
    let me = seat.me();
    let told = seat.intent(act);
    let took = took(seat, act);
    if took != told {
        return false;
    }
    match took {
        Some(step) => takes(world, label_of(me, step)),
        None => true,
    }
}

/// The step that the seat takes.
fn took(seat: &mut WordSeat, act: SeatAct) -> Option<Step>
    requires { IsAmong seat.old.node.quorums.nodes act }
{
    match act {
        SeatAct::Start => match seat.start() {
            Ok(ballot) => Some(Step::Start(ballot)),
            Err(_) => None,
        },
        SeatAct::Promise(j) => match seat.promise(j) {
            Some(ballot) => Some(Step::Promise(ballot)),
            None => None,
        },
        SeatAct::Propose => match seat.propose() {
            Some((ballot, value)) => Some(Step::Propose(ballot, value)),
            None => None,
        },
        SeatAct::Accept(j) => match seat.accept(j) {
            Some(vote) => Some(Step::Accept(vote.ballot, vote.value)),
            None => None,
        },
    }
}

/// The step in the reference.
fn label_of(me: u8, step: Step) -> Label {
    match step {
        Step::Start(ballot) => Label::Starts(me, ballot),
        Step::Promise(ballot) => Label::Promises(me, ballot),
        Step::Propose(ballot, value) => Label::Proposes(ballot, value),
        Step::Accept(ballot, value) => Label::Accepts(me, ballot, value),
    }
}

/// Looks at node `j`'s proposer.
fn looks_at_proposer(seat: &mut WordSeat, world: &World, j: u8) -> bool
    requires { j < seat.old.node.quorums.nodes }
{
    let Some(kept) = world.nodes.get(usize::from(j)) else {
        return false;
    };
    let shown = ProposerWord {
        started: kept.started(),
        proposed: proposed_under(&world.sent, kept.started()),
    };
    seat.look_proposer(j) == shown
}

/// Looks at node `j`'s acceptor, by which the seat may learn.
fn looks_at_acceptor(seat: &mut WordSeat, world: &mut World, j: u8) -> bool
    requires { j < seat.old.node.quorums.nodes }
{
    let Some(kept) = world.nodes.get(usize::from(j)) else {
        return false;
    };
    let shown = AcceptorWord {
        promised: kept.promised(),
        accepted: kept.accepted(),
    };
    let before = seat.learned();
    if seat.look_acceptor(j) != shown {
        return false;
    }
    match (before, seat.learned()) {
        (None, Some(value)) => learns(world, seat.me(), u16::from(value)),
        (before, after) => before == after,
    }
}

/// What a node learns is what every node has learned that has learned any.
fn learns(world: &mut World, me: u8, value: u16) -> bool {
    takes(world, Label::Learns(me, value)) && world.learned.iter().all(|learned| learned.1 == value)
}

/// The value that was proposed under the ballot.
fn proposed_under(sent: &[Msg], ballot: u16) -> Option<u8> {
    for message in sent {
        if let Msg::Propose(under, value) = *message {
            if under == ballot {
                return u8::try_from(value).ok();
            }
        }
    }
    None
}
