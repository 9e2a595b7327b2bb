ghost use Rattle.std.specs.Prelude.{◌≡◌, ◌≢◌, ◌↔◌, ℕ, ◌+◌, ◌<◌, ◌≤◌, ◌∷◌, length, map, IfErr, IfOk, IfSome, IsNone, IsTrue, OnOk};
ghost use Rattle.std.specs.Vec.Iter.{into_iter_items};
ghost use Rattle.paxos_core_world.specs.World.{nodes_of};
ghost use Rattle.rooms.specs.Opened.{AreOffersOf};
ghost use Rattle.rooms_function.specs.Opened.{kept_of_pass, seven_parts, AreDealersOf, AreDealtBy, AreFresh, AreSeatsOf, AreSettled, IsLowest, IsOfferedIn, IsSettledIn, IsUndealt, IsUnopened};
ghost use Rattle.rooms.specs.declared.error.RoomError.TheVariants as error;

use crate::seat::FunctionSeat;
use alloc_check::Alloc;
use constprop_check::ConstProp;
use cse_check::Cse;
use linearize_check::Linearize;
use offers::Offer;
use paxos_core_node_steps::settled::settled;
use paxos_core_world::kept::Kept;
use paxos_core_world::quorum::Quorums;
use rooms::{FourDealers, RoomError, Seat, open_four, seats_of};
use std::alloc::{AllocError, Global};
use std::vec::IntoIter;

/// Opens the rooms of functions. They are no value: they last as long as one of their seats does.
pub struct FunctionRoom;

/// The offers of the nodes, pass by pass: each node's, if it has made one.
#[derive(Drop)]
pub struct FunctionOffers {
    pub first: Vec<Option<Offer<ConstProp>>>,
    pub second: Vec<Option<Offer<Cse>>>,
    pub third: Vec<Option<Offer<Alloc>>>,
    pub fourth: Vec<Option<Offer<Linearize>>>,
}

/// Why a function's rooms are not opened, and the first pass, from 1 to 4, in the room of which that is so.
#[derive(Clone, Copy, Debug, PartialEq, Eq)]
pub struct Unopened {
    pub pass: u8,
    pub error: RoomError,
}

impl FunctionRoom {
    /// The seats of the nodes of a function, which have kept these parts in the rooms of the four passes and made these offers. Each
    /// room has these quorums. The rooms' table has this number for good: no call changes that of a seat.
    pub fn open(
        alloc: Global,
        number: u64,
        kept: &[[Kept; 4]],
        offers: FunctionOffers,
        quorums: Quorums,
    ) -> Result<Vec<FunctionSeat>, Unopened>
        requires size { length kept.now ≡ quorums.nodes }
        requires first { AreOffersOf (kept_of_pass 0 kept.now) offers.first.items }
        requires second { AreOffersOf (kept_of_pass 1 kept.now) offers.second.items }
        requires third { AreOffersOf (kept_of_pass 2 kept.now) offers.third.items }
        requires fourth { AreOffersOf (kept_of_pass 3 kept.now) offers.fourth.items }
        ensures ok { IfOk result (λ seats. AreSeatsOf number quorums kept.now offers seats.items) }
        ensures settled { OnOk result (AreSettled quorums kept.now) }
        ensures told { IfErr result (λ e. IsUnopened quorums kept.now offers e.pass e.error) }
    {
        match dealers_of(alloc, number, kept, quorums) {
            Ok(dealers) => seats_of_all(alloc, dealers, offers),
            Err(unopened) => Err(unopened),
        }
    }
}

/// Deals the seats in the rooms of the four passes, where what was kept in each is settled.
fn dealers_of(
    alloc: Global,
    number: u64,
    kept: &[[Kept; 4]],
    quorums: Quorums,
) -> Result<FourDealers, Unopened>
    requires { length kept.now ≡ quorums.nodes }
    ensures ok { IfOk result (λ all. AreDealersOf number quorums kept.now all) }
    ensures settled { OnOk result (AreSettled quorums kept.now) }
    ensures told { IfErr result (λ e. IsUndealt quorums kept.now e.pass e.error) }
{
    if let Some(pass) = unsettled_pass(kept, quorums) {
        return Err(Unopened {
            pass,
            error: RoomError::Unsettled,
        });
    }
    match four_dealers(alloc, number, kept, quorums) {
        Ok(dealers) => Ok(dealers),
        Err(_) => Err(no_memory()),
    }
}

/// The lowest pass, from 1 to 4, in the room of which what was kept is not settled.
fn unsettled_pass(kept: &[[Kept; 4]], quorums: Quorums) -> Option<u8>
    requires { length kept.now ≡ quorums.nodes }
    ensures some { IfSome result (λ pass. IsLowest quorums kept.now pass) }
    ensures none { IsNone result → AreSettled quorums kept.now }
{
    for pass in 0..4 {
        if !is_settled_in(kept, pass, quorums) {
            return Some(pass + 1);
        }
    }
    None
}

/// Whether what was kept in the room of a pass, the first pass's being 0, is settled.
fn is_settled_in(kept: &[[Kept; 4]], pass: u8, quorums: Quorums) -> bool
    requires size { length kept.now ≡ quorums.nodes }
    requires pass { pass < 4 }
    ensures { IsTrue result ↔ IsSettledIn quorums kept.now pass }
{
    let parts = parts_in(kept, usize::from(pass));
    settled(&parts[..usize::from(quorums.nodes())], quorums)
}

/// The dealers of the rooms of the four passes in one table.
fn four_dealers(
    alloc: Global,
    number: u64,
    kept: &[[Kept; 4]],
    quorums: Quorums,
) -> Result<FourDealers, AllocError>
    requires size { length kept.now ≡ quorums.nodes }
    requires settled { AreSettled quorums kept.now }
    ensures { IfOk result (λ all. AreDealersOf number quorums kept.now all) }
{
    let nodes = usize::from(quorums.nodes());
    let first = parts_in(kept, 0);
    let second = parts_in(kept, 1);
    let third = parts_in(kept, 2);
    let fourth = parts_in(kept, 3);
    open_four(
        alloc,
        number,
        &first[..nodes],
        &second[..nodes],
        &third[..nodes],
        &fourth[..nodes],
        quorums,
    )
}

/// What each node has kept in the room of a pass, the first pass's being 0, in a row of seven.
fn parts_in(kept: &[[Kept; 4]], pass: usize) -> [Kept; 7]
    ensures { result ≡ seven_parts (kept_of_pass pass kept.now) }
{
    [
        part_of(kept, 0, pass),
        part_of(kept, 1, pass),
        part_of(kept, 2, pass),
        part_of(kept, 3, pass),
        part_of(kept, 4, pass),
        part_of(kept, 5, pass),
        part_of(kept, 6, pass),
    ]
}

/// What the node of that number has kept in the room of a pass, the first pass's being 0.
fn part_of(kept: &[[Kept; 4]], node: usize, pass: usize) -> Kept
    ensures { result ≡ nodes_of (kept_of_pass pass kept.now) node }
{
    match kept.get(node) {
        Some(parts) => part_at(parts, pass),
        None => Kept::nothing(),
    }
}

/// What stands at that place.
fn part_at(parts: &[Kept; 4], pass: usize) -> Kept
    ensures { result ≡ nodes_of parts.now pass }
{
    match parts.get(pass) {
        Some(part) => *part,
        None => Kept::nothing(),
    }
}

/// The seats of the nodes, which have made these offers, of rooms of which none was dealt yet.
fn seats_of_all(
    alloc: Global,
    dealers: FourDealers,
    offers: FunctionOffers,
) -> Result<Vec<FunctionSeat>, Unopened>
    requires { AreFresh dealers offers }
    ensures ok { IfOk result (λ seats. AreDealtBy dealers offers seats.items) }
    ensures pass { IfErr result (λ e. (0 < e.pass) × (e.pass ≤ 4)) }
    ensures settled { IfErr result (λ e. e.error ≢ error.Unsettled) }
    ensures refused { IfErr result (λ e. e.error ≡ error.CellRefused → IsOfferedIn offers e.pass) }
{
    let FourDealers {
        first: dealer1,
        second: dealer2,
        third: dealer3,
        fourth: dealer4,
    } = dealers;
    let FunctionOffers {
        first: offers1,
        second: offers2,
        third: offers3,
        fourth: offers4,
    } = offers;
    let first = match seats_of(alloc, dealer1, offers1) {
        Ok(seats) => seats,
        Err(error) => return Err(Unopened { pass: 1, error }),
    };
    let second = match seats_of(alloc, dealer2, offers2) {
        Ok(seats) => seats,
        Err(error) => return Err(Unopened { pass: 2, error }),
    };
    let third = match seats_of(alloc, dealer3, offers3) {
        Ok(seats) => seats,
        Err(error) => return Err(Unopened { pass: 3, error }),
    };
    let fourth = match seats_of(alloc, dealer4, offers4) {
        Ok(seats) => seats,
        Err(error) => return Err(Unopened { pass: 4, error }),
    };
    node_by_node(alloc, first, second, third, fourth)
}

/// There is no memory for a room.
fn no_memory() -> Unopened
    ensures error { result.error ≡ error.NoMemory }
    ensures pass { result.pass ≡ 1 }
{
    Unopened {
        pass: 1,
        error: RoomError::NoMemory,
    }
}

/// Each node's seat, from those of all nodes in the room of each pass.
fn node_by_node(
    alloc: Global,
    first: Vec<Seat<ConstProp>>,
    second: Vec<Seat<Cse>>,
    third: Vec<Seat<Alloc>>,
    fourth: Vec<Seat<Linearize>>,
) -> Result<Vec<FunctionSeat>, Unopened>
    requires second { length second.items ≡ length first.items }
    requires third { length third.items ≡ length first.items }
    requires fourth { length fourth.items ≡ length first.items }
    ensures first { IfOk result (λ nodes. map (λ n. n.first) nodes.items ≡ first.items) }
    ensures second { IfOk result (λ nodes. map (λ n. n.second) nodes.items ≡ second.items) }
    ensures third { IfOk result (λ nodes. map (λ n. n.third) nodes.items ≡ third.items) }
    ensures fourth { IfOk result (λ nodes. map (λ n. n.fourth) nodes.items ≡ fourth.items) }
    ensures err { IfErr result (λ e. (e.error ≡ error.NoMemory) × (e.pass ≡ 1)) }
{
    let mut nodes = Vec::new(alloc);
    let mut seconds = second.into_iter();
    let mut thirds = third.into_iter();
    let mut fourths = fourth.into_iter();
    for first in first {
        let node = FunctionSeat {
            first,
            second: next_of(&mut seconds),
            third: next_of(&mut thirds),
            fourth: next_of(&mut fourths),
        };
        if nodes.push(node).is_err() {
            return Err(no_memory());
        }
    }
    Ok(nodes)
}

/// The next of those that are left.
fn next_of<T: Drop>(left: &mut IntoIter<T>) -> T
    requires { 0 < length (into_iter_items left.old) }
    ensures { into_iter_items left.old ≡ result ∷ into_iter_items left.new }
{
    let Some(next) = left.next() else {
        unreachable!();
    };
    next
}
