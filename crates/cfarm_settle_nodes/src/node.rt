//! What a node of a room does in a turn, whatever the pass is that the room's offers are of.

ghost use Rattle.std.specs.Prelude.{◌≡◌, ◌<◌, ◌≢◌, IfErr};
ghost use Rattle.rooms_cells.specs.Seen.{names_of};
ghost use Rattle.rooms.specs.SeatValue.{offer_of};
ghost use Rattle.cfarm_settle_nodes.specs.Goes.{SeatGoesOn, SeesNoMore};

use crate::offering::offer_for;
use crate::player::{Player, Seen};
use lang_base::{Language, NoMemory, Oracle, Pass, PassError};
use offers::Offer;
use rand_core::utils::NextWord;
use rand_pcg::Pcg32;
use rooms::Seat;
use rooms_cells::Put;
use std::alloc::Global;
use std::sync::Arc;

/// Whether the node has made its offer.
fn has_offered<P: Pass>(seat: &Seat<P>) -> bool {
    seat.kept().offered()
}

/// Puts the node's offer into its cell, where it has made none.
fn put<P: Pass>(alloc: Global, seat: &mut Seat<P>, made: Offer<P>) -> Result<(), NoMemory>
    ensures { SeatGoesOn made.input seat.old seat.new }
{
    let Ok(shared) = Arc::new(alloc, made) else {
        return Err(NoMemory);
    };
    match seat.offer(alloc, shared) {
        Put::NoMemory(_back) => Err(NoMemory),
        _ => Ok(()),
    }
}

/// Makes the node's offer, if it has made none.
fn offer<O: Oracle + Drop>(
    alloc: Global,
    seat: &mut Seat<O::P>,
    player: &mut Player<O>,
    input: &<<O::P as Pass>::In as Language>::Fun,
) -> Result<(), PassError>
    ensures seat { SeatGoesOn input.now seat.old seat.new }
    ensures refused { IfErr result (λ e. e ≢ PassError.NoMemory → O.P.too_large input.now) }
{
    if has_offered(seat) {
        return Ok(());
    }
    let made = match offer_for(alloc, &mut player.oracle, input, &mut player.draws) {
        Ok(made) => made,
        Err(fault) => return Err(fault),
    };
    match put(alloc, seat, made) {
        Ok(()) => Ok(()),
        Err(_) => Err(PassError::NoMemory),
    }
}

/// Accepts what node `j` was last seen to have proposed, or else promises what it has started.
fn answer<P: Pass>(seat: &mut Seat<P>, j: u8)
    requires { j < seat.old.words.node.quorums.nodes }
    ensures { SeesNoMore seat.old seat.new }
{
    match seat.accept(j) {
        Some(_vote) => {}
        None => {
            let _promised = seat.promise(j);
        }
    }
}

/// Looks at node `j`: at its proposer, which is answered, then at its acceptor. Answers whether it saw anything new.
fn hear<P: Pass>(seat: &mut Seat<P>, j: u8, seen: &mut Seen) -> bool
    requires { j < seat.old.words.node.quorums.nodes }
    ensures { SeesNoMore seat.old seat.new }
{
    let proposer = seat.look_proposer(j);
    answer(seat, j);
    let acceptor = seat.look_acceptor(j);
    seen.note(j, proposer, acceptor)
}

/// Looks at each node, its own too. Answers whether it saw anything new.
fn hear_all<P: Pass>(seat: &mut Seat<P>, seen: &mut Seen) -> bool
    ensures { SeesNoMore seat.old seat.new }
{
    let count = seat.count();
    let mut is_new = false;
    for j in 0..count {
        let is_new_here = hear(seat, j, seen);
        is_new |= is_new_here;
    }
    is_new
}

/// Whether the node is to start a ballot: it has offered and not learned, what it has under way, if anything, is below what it has
/// promised, and its next word is a multiple of 4.
fn is_due<P: Pass>(seat: &Seat<P>, draws: &mut Pcg32) -> bool {
    let kept = seat.kept();
    let is_free = match seat.ballot() {
        None => true,
        Some(ballot) => ballot < kept.promised(),
    };
    kept.offered() && seat.learned().is_none() && is_free && draws.next_word() % 4 == 0
}

/// Starts a ballot, if one is left.
fn start<P: Pass>(seat: &mut Seat<P>)
    ensures { SeesNoMore seat.old seat.new }
{
    let _started = seat.start();
}

/// Proposes, and starts a ballot where that is due.
fn lead<P: Pass>(seat: &mut Seat<P>, draws: &mut Pcg32)
    ensures { SeesNoMore seat.old seat.new }
{
    let _proposed = seat.propose();
    if !is_due(seat, draws) {
        return;
    }
    start(seat);
}

/// Reads the cell of the node whose offer it has learned; its own offer it has.
fn fetch<P: Pass>(seat: &mut Seat<P>)
    ensures words { seat.new.words ≡ seat.old.words }
    ensures own { offer_of seat.new seat.old.words.node.me ≡ offer_of seat.old seat.old.words.node.me }
    ensures cells { names_of seat.new.sights ≡ names_of seat.old.sights }
{
    let Some(value) = seat.learned() else {
        return;
    };
    let me = seat.me();
    if value == me || value >= seat.count() {
        return;
    }
    seat.see(value);
}

/// What a node does in a turn once it has offered. Answers whether it saw anything new.
fn act<P: Pass>(seat: &mut Seat<P>, seen: &mut Seen, draws: &mut Pcg32) -> bool
    ensures { (f : P.In.Fun) → SeatGoesOn f seat.old seat.new }
{
    let is_new = hear_all(seat, seen);
    lead(seat, draws);
    fetch(seat);
    is_new
}

/// One turn. Answers whether the node saw anything new.
pub(crate) fn turn<O: Oracle + Drop>(
    alloc: Global,
    seat: &mut Seat<O::P>,
    player: &mut Player<O>,
    input: &<<O::P as Pass>::In as Language>::Fun,
) -> Result<bool, PassError>
    ensures seat { SeatGoesOn input.now seat.old seat.new }
    ensures refused { IfErr result (λ e. e ≢ PassError.NoMemory → O.P.too_large input.now) }
{
    match offer(alloc, seat, player, input) {
        Ok(()) => Ok(act(seat, &mut player.seen, &mut player.draws)),
        Err(fault) => Err(fault),
    }
}
