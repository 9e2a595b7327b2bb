//! The seats of rooms of nodes. Where a room does not open, fewer are there than it has nodes.

ghost use Rattle.std.specs.Prelude.{◌≡◌, ◌<◌, ◌+◌, [], ◌∷◌, None, IfSome, IsTrue};

use paxos_core_theorem::settled::settled;
use paxos_core_world::kept::Kept;
use paxos_core_world::quorum::Quorums;
use rooms_function::{FunctionOffers, FunctionRoom, FunctionSeat};
use rooms_seat::{Dealer, WordSeat};
use std::alloc::Global;

/// The seats of a room with these quorums whose nodes have kept these parts.
pub fn seats_of(alloc: Global, kept: &[Kept], quorums: Quorums) -> Vec<WordSeat> {
    let mut seats = Vec::new(alloc);
    let nodes = quorums.nodes();
    if kept.len() == usize::from(nodes) && settled(kept, quorums) {
        if let Ok(mut dealer) = Dealer::open(alloc, kept, quorums) {
            deal_all(&mut dealer, nodes, &mut seats);
        }
    }
    seats
}

/// The seats of a room of so many nodes with majorities, which have kept these parts.
pub fn majority_seats(alloc: Global, kept: &[Kept], nodes: u8) -> Vec<WordSeat> {
    match Quorums::majorities(nodes) {
        Some(quorums) => seats_of(alloc, kept, quorums),
        None => Vec::new(alloc),
    }
}

/// Deals the seats of so many nodes.
fn deal_all(dealer: &mut Dealer, nodes: u8, seats: &mut Vec<WordSeat>)
    requires next { dealer.old.next ≡ 0 }
    requires nodes { dealer.old.opening.quorums.nodes ≡ nodes }
{
    for _node in 0..nodes {
        if !deal(dealer, seats) {
            return;
        }
    }
}

/// Deals the next node's seat.
fn deal(dealer: &mut Dealer, seats: &mut Vec<WordSeat>) -> bool
    requires { dealer.old.next < dealer.old.opening.quorums.nodes }
    ensures next { IsTrue result → dealer.new.next ≡ dealer.old.next + 1 }
    ensures quorums { IsTrue result → dealer.new.opening.quorums ≡ dealer.old.opening.quorums }
{
    match dealer.deal() {
        Ok(seat) => seats.push(seat).is_ok(),
        Err(_) => false,
    }
}

/// What three nodes have not made.
fn nothing<T: Drop>(alloc: Global) -> Option<Vec<Option<T>>>
    ensures { IfSome result (λ made. made.items ≡ None ∷ None ∷ None ∷ []) }
{
    let mut made = Vec::new(alloc);
    let is_made = made.push(None).is_ok() && made.push(None).is_ok() && made.push(None).is_ok();
    if is_made { Some(made) } else { None }
}

/// What three nodes have not made, of each of four kinds.
fn nothings<A: Drop, B: Drop, C: Drop, D: Drop>(
    alloc: Global,
) -> Option<
    (
        Vec<Option<A>>,
        Vec<Option<B>>,
        Vec<Option<C>>,
        Vec<Option<D>>,
    ),
>
    ensures first { IfSome result (λ made. made.0.items ≡ None ∷ None ∷ None ∷ []) }
    ensures second { IfSome result (λ made. made.1.items ≡ None ∷ None ∷ None ∷ []) }
    ensures third { IfSome result (λ made. made.2.items ≡ None ∷ None ∷ None ∷ []) }
    ensures fourth { IfSome result (λ made. made.3.items ≡ None ∷ None ∷ None ∷ []) }
{
    let Some(first) = nothing(alloc) else {
        return None;
    };
    let Some(second) = nothing(alloc) else {
        return None;
    };
    let Some(third) = nothing(alloc) else {
        return None;
    };
    let Some(fourth) = nothing(alloc) else {
        return None;
    };
    Some((first, second, third, fourth))
}

/// The seats of three nodes of a function, where nobody has kept or offered anything.
pub fn function_seats(alloc: Global) -> Vec<FunctionSeat> {
    let nothing_kept = Kept::nothing();
    let fresh = [nothing_kept, nothing_kept, nothing_kept, nothing_kept];
    let Some((first, second, third, fourth)) = nothings(alloc) else {
        return Vec::new(alloc);
    };
    let offers = FunctionOffers {
        first,
        second,
        third,
        fourth,
    };
    let Some(quorums) = Quorums::majorities(3) else {
        return Vec::new(alloc);
    };
    match FunctionRoom::open(alloc, 0, &[fresh, fresh, fresh], offers, quorums) {
        Ok(seats) => seats,
        Err(_) => Vec::new(alloc),
    }
}
