ghost use Rattle.std.specs.Prelude.{◌≡◌, ◌≢◌, ◌<◌, ◌+◌, ◌↔◌, length, IfOk, OnOk, Err, is_some, true};
ghost use Rattle.std.specs.Arc.{arc_value};
ghost use Rattle.paxos_core_world.specs.Settled.{Settled};
ghost use Rattle.paxos_core_world.specs.World.{nodes_of};
ghost use Rattle.rooms.specs.Opened.{opened, with_seen, AnyOffered, AreDealt, AreFit, AreOffersOf, AreOpened, IsFit};
ghost use Rattle.rooms.specs.declared.error.RoomError.TheVariants as error;

use crate::error::RoomError;
use crate::seat::Seat;
use lang_base::Pass;
use offers::Offer;
use paxos_core_node_steps::settled::settled;
use paxos_core_world::kept::Kept;
use paxos_core_world::quorum::Quorums;
use rooms_cells::{Put, Shelf, Sights};
use rooms_seat::Dealer;
use std::alloc::Global;
use std::sync::Arc;

/// Opens rooms. A room itself is no value: it lasts as long as one of its seats does.
pub struct Room;

impl Room {
    /// The seats of a room with these quorums whose nodes have kept these parts and made these offers, in the order of the nodes.
    /// It is alone in its table.
    pub fn open<P: Pass>(
        alloc: Global,
        kept: &[Kept],
        offers: Vec<Option<Offer<P>>>,
        quorums: Quorums,
    ) -> Result<Vec<Seat<P>>, RoomError>
        requires size { length kept.now ≡ quorums.nodes }
        requires offers { AreOffersOf kept.now offers.items }
        ensures ok { IfOk result (λ seats. AreOpened quorums kept.now offers.items seats.items) }
        ensures settled { OnOk result (Settled quorums (nodes_of kept.now)) }
        ensures unsettled { (result ≡ Err error.Unsettled) ↔ (¬ Settled quorums (nodes_of kept.now)) }
        ensures refused { result ≡ Err error.CellRefused → AnyOffered offers.items }
    {
        if !settled(kept, quorums) {
            return Err(RoomError::Unsettled);
        }
        let Ok(dealer) = Dealer::open(alloc, kept, quorums) else {
            return Err(RoomError::NoMemory);
        };
        seats_of(alloc, dealer, offers)
    }
}

/// The seats of a room of which none was dealt yet, in the order of the nodes, which have made these offers.
#[tactic(auto, using(crate::proofs::Openings::take_left, crate::proofs::Openings::any_offer))]
pub fn seats_of<P: Pass>(
    alloc: Global,
    dealer: Dealer,
    offers: Vec<Option<Offer<P>>>,
) -> Result<Vec<Seat<P>>, RoomError>
    requires next { dealer.next ≡ 0 }
    requires offers { length offers.items ≡ dealer.opening.quorums.nodes }
    requires fit { AreFit dealer.opening offers.items }
    ensures ok { IfOk result (λ seats. AreDealt dealer.table dealer.opening offers.items seats.items) }
    ensures settled { result ≢ Err error.Unsettled }
    ensures refused { result ≡ Err error.CellRefused → AnyOffered offers.items }
{
    let mut dealer = dealer;
    let mut offers = offers;
    let Ok(shelf) = Arc::new(alloc, Shelf::new(alloc)) else {
        return Err(RoomError::NoMemory);
    };
    let mut seats = Vec::new(alloc);
    for node in 0..offers.len() {
        let offer = offers[node].take();
        let seat = match next_seat(alloc, &mut dealer, &shelf, offer) {
            Ok(seat) => seat,
            Err(error) => return Err(error),
        };
        if seats.push(seat).is_err() {
            return Err(RoomError::NoMemory);
        }
    }
    Ok(seats)
}

/// The next node's seat, which has put the node's offer into its cell.
fn next_seat<P: Pass>(
    alloc: Global,
    dealer: &mut Dealer,
    shelf: &Arc<Shelf<Offer<P>>>,
    offer: Option<Offer<P>>,
) -> Result<Seat<P>, RoomError>
    requires number { dealer.old.next < dealer.old.opening.quorums.nodes }
    requires fit { IsFit dealer.old.opening dealer.old.next offer }
    ensures seat { IfOk result (λ seat.
        seat ≡ opened dealer.old.table (arc_value shelf.now) dealer.old.opening dealer.old.next offer) }
    ensures ok { OnOk result (dealer.new ≡ record dealer.old { next = dealer.old.next + 1 }) }
    ensures settled { result ≢ Err error.Unsettled }
    ensures refused { result ≡ Err error.CellRefused → is_some offer ≡ true }
{
    let Ok(words) = dealer.deal() else {
        return Err(RoomError::NoMemory);
    };
    let Ok(shelf) = Arc::try_clone(shelf) else {
        return Err(RoomError::NoMemory);
    };
    words.bounds();
    let mut sights = Sights::of(shelf);
    let place = usize::from(words.me());
    if let Some(offer) = offer {
        fill(alloc, &mut sights, place, offer)?;
    }
    Ok(Seat { words, sights })
}

/// Puts a node's offer into its cell.
#[tactic(auto, using(crate::proofs::Openings::put_seen))]
fn fill<P: Pass>(
    alloc: Global,
    sights: &mut Sights<Offer<P>>,
    node: usize,
    offer: Offer<P>,
) -> Result<(), RoomError>
    requires { node < 7 }
    ensures ok { OnOk result (sights.new ≡ with_seen node (Some offer) sights.old) }
    ensures settled { result ≢ Err error.Unsettled }
{
    let Ok(offer) = Arc::new(alloc, offer) else {
        return Err(RoomError::NoMemory);
    };
    match sights.put(alloc, node, offer) {
        Put::Yes => Ok(()),
        Put::No(_) => Err(RoomError::CellRefused),
        Put::NoMemory(_) => Err(RoomError::NoMemory),
    }
}
