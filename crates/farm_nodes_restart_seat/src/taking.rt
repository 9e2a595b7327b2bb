//! What a halted node was about to do with one seat.

ghost use Rattle.std.specs.Prelude.{◌≡◌, ◌↔◌, [], ◌∷◌, ℕ, IsTrue, IfOk, IfErr, OnOk, OnErr};
ghost use Rattle.std.specs.Arc.{arc_value};
ghost use Rattle.offers.specs.declared.parts.Parts.{Parts};
ghost use Rattle.farm_nodes_turn_offer.specs.SeatValue.{IsOneRoom};
ghost use Rattle.rooms_seat_state.specs.Would.{would, Acted, IsAmong};
ghost use Rattle.farm_nodes_turn_offer.specs.Noted.{records_of, pending_of};
ghost use Rattle.farm_nodes_turn_offer.specs.Pending.{IsAsked, IsOfferLeft, IsPendingOn, IsOfferText};
ghost use Rattle.farm_nodes_restart_seat.specs.Taken.{HasForgotten, IsOfferFault, IsTakeFault, Took};
ghost use Rattle.farm_nodes_restart_seat.specs.Telling.{LaysOffer, OffersAgain};

use crate::fault::RestartFault;
use acceptor_log_form::Record;
use farm_nodes_turn_offer::{Pending, Seat, record_of};
use lang_base::{NoMemory, Pass};
use offers::{Offer, OfferError};
use rooms_cells::Put;
use rooms_seat_state::act::SeatAct;
use std::alloc::Global;
use std::sync::Arc;

/// Whether the record is that of what is pending.
pub fn is_pending<P: Pass>(seat: &Seat<P>, room: u16, pending: &Pending, entry: &Record) -> bool
    requires { IsAsked seat.now.words pending.now }
    ensures { IsTrue result ↔ (pending_of room seat.now.words pending.now ≡ entry.now ∷ []) }
{
    match pending {
        Pending::Act(act) => is_told(seat, room, *act, entry),
        Pending::Offer(made) => made == entry,
    }
}

/// Whether the record is that of the step that the seat would take.
fn is_told<P: Pass>(seat: &Seat<P>, room: u16, act: SeatAct, entry: &Record) -> bool
    requires { IsAmong seat.now.words.node.quorums.nodes act }
    ensures { IsTrue result ↔ (records_of room (would seat.now.words act) ≡ entry.now ∷ []) }
{
    let Some(step) = seat.intent(act) else {
        return false;
    };
    seat.known();
    record_of(room, step) == *entry
}

/// Does what is pending.
pub fn take<P: Pass>(
    alloc: Global,
    seat: &mut Seat<P>,
    room: u16,
    pending: &Pending,
) -> Result<(), RestartFault>
    requires { IsPendingOn (IsOfferText P.In.Language P.Out.Language P.Pass) room seat.old pending.now }
    ensures ok { OnOk result
        (Took (IsOfferText P.In.Language P.Out.Language P.Pass) room pending.now seat.old seat.new) }
    ensures err { OnErr result (seat.new ≡ seat.old) }
    ensures faults { IfErr result (IsTakeFault pending.now) }
    ensures room { IsOneRoom seat.old seat.new }
{
    match pending {
        Pending::Act(act) => {
            do_act(seat, *act);
            Ok(())
        }
        Pending::Offer(entry) => offer_again(alloc, seat, room, entry),
    }
}

/// Does what it is asked.
fn do_act<P: Pass>(seat: &mut Seat<P>, act: SeatAct)
    requires { IsAmong seat.old.words.node.quorums.nodes act }
    ensures acted { Acted act seat.old.words seat.new.words }
    ensures sights { seat.new.sights ≡ seat.old.sights }
    ensures room { IsOneRoom seat.old seat.new }
{
    match act {
        SeatAct::Start => {
            let _ballot = seat.start();
        }
        SeatAct::Promise(j) => {
            let _ballot = seat.promise(j);
        }
        SeatAct::Propose => {
            let _proposal = seat.propose();
        }
        SeatAct::Accept(j) => {
            let _vote = seat.accept(j);
        }
    }
}

/// Makes the offer again that the record is of, and lays it into the node's cell.
fn offer_again<P: Pass>(
    alloc: Global,
    seat: &mut Seat<P>,
    room: u16,
    entry: &Record,
) -> Result<(), RestartFault>
    requires { IsOfferLeft (IsOfferText P.In.Language P.Out.Language P.Pass) room seat.old entry.now }
    ensures ok { OnOk result
        (OffersAgain P.In.Language P.Out.Language P.Pass room entry.now seat.old seat.new) }
    ensures err { OnErr result (seat.new ≡ seat.old) }
    ensures faults { IfErr result IsOfferFault }
    ensures room { IsOneRoom seat.old seat.new }
{
    let _room = room;
    let Record::Offered(_, text) = entry else {
        unreachable!();
    };
    lay_again(alloc, seat, text.as_slice())
}

/// Makes the offer again that these bytes are, and lays it into the node's cell.
fn lay_again<P: Pass>(alloc: Global, seat: &mut Seat<P>, bytes: &[u8]) -> Result<(), RestartFault>
    requires { (x : Parts P.In.Fun P.Out.Fun P.Cert) × IsOfferText P.In.Language P.Out.Language P.Pass bytes.now x }
    ensures ok { OnOk result (LaysOffer P.In.Language P.Out.Language P.Pass bytes.now seat.old seat.new) }
    ensures err { OnErr result (seat.new ≡ seat.old) }
    ensures faults { IfErr result IsOfferFault }
    ensures room { IsOneRoom seat.old seat.new }
{
    let Ok(offer) = made_again::<P>(alloc, bytes) else {
        return Err(RestartFault::NoMemory);
    };
    match seat.offer(alloc, offer) {
        Put::Yes => Ok(()),
        Put::No(_back) => Err(RestartFault::CellRefused),
        Put::NoMemory(_back) => Err(RestartFault::NoMemory),
    }
}

/// The offer that these bytes are, where all seats of the room can read it.
fn made_again<P: Pass>(alloc: Global, bytes: &[u8]) -> Result<Arc<Offer<P>>, NoMemory>
    requires { (x : Parts P.In.Fun P.Out.Fun P.Cert) × IsOfferText P.In.Language P.Out.Language P.Pass bytes.now x }
    ensures { IfOk result (λ offer. IsOfferText P.In.Language P.Out.Language P.Pass bytes.now (arc_value offer)) }
{
    let offer = match Offer::<P>::read(alloc, bytes) {
        Ok(offer) => offer,
        Err(OfferError::NoMemory) => return Err(NoMemory),
        Err(_) => unreachable!(),
    };
    offer.validated();
    match Arc::new(alloc, offer) {
        Ok(shared) => Ok(shared),
        Err(_) => Err(NoMemory),
    }
}

/// Forgets all but what the node keeps, and the offers that were seen.
pub fn forget<P: Pass>(seat: &mut Seat<P>)
    ensures forgotten { HasForgotten seat.old seat.new }
    ensures room { IsOneRoom seat.old seat.new }
{
    seat.forget();
}
