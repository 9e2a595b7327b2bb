ghost use Rattle.std.specs.Prelude.{◌≡◌, ◌+◌, ◌*◌, ◌<◌, ◌≤◌, ◌⊎◌, length, IfOk, OnOk, IfErr};
ghost use Rattle.farm_nodes_turn_passes.specs.declared.which.Which.TheVariants as which;
ghost use Rattle.farm_nodes_open_lists.specs.Rows.{rows_of};
ghost use Rattle.farm_nodes_open_numbers.specs.declared.fault.RoomFault.TheVariants as fault;
ghost use Rattle.farm_nodes_open_rooms.specs.Opened.{AreOfferedFor};
ghost use Rattle.farm_nodes_open_rooms.specs.Function.{room_fault, AreHere, AreTaken, IsOpenFunction, IsRoomFault};

use farm_nodes_open_lists::take_each;
use farm_nodes_open_numbers::{RoomFault, Unopened, numbered, parts_of};
use farm_nodes_turn_passes::{
    Alloc, ConstProp, Cse, FunctionOffers, FunctionRoom, Linearize, NumberedSeat, Passes,
};
use lang_base::NoMemory;
use offers::Offer;
use paxos_core_world::kept::Kept;
use paxos_core_world::quorum::Quorums;
use rooms::RoomError;
use rooms_hall::{DrawError, Drawn, Hall, Naming};
use std::alloc::Global;

/// The offers that the nodes of a farm have made, pass by pass: node by node, for each function at most one.
pub type Offered = Passes<
    Vec<Vec<Option<Offer<ConstProp>>>>,
    Vec<Vec<Option<Offer<Cse>>>>,
    Vec<Vec<Option<Offer<Alloc>>>>,
    Vec<Vec<Option<Offer<Linearize>>>>,
>;

/// The seats of the nodes in the four rooms of a function, in the order of the nodes, from what each has kept of each room and the offers
/// of the nodes there, which are taken out. Each room has these quorums. Where the rooms are not opened one is told, the first in the
/// order of the passes.
pub(crate) fn open_function<H: Naming>(
    alloc: Global,
    hall: &Hall<H>,
    kept: &[Vec<Kept>],
    function: u16,
    offers: &mut Offered,
    quorums: Quorums,
) -> Result<Vec<NumberedSeat<H>>, Unopened>
    requires number { function < 16384 }
    requires size { length kept.now ≡ quorums.nodes }
    requires offers1 { AreOfferedFor kept.now which.Constants function (rows_of offers.old.constants.items) }
    requires offers2 { AreOfferedFor kept.now which.Expressions function (rows_of offers.old.expressions.items) }
    requires offers3 { AreOfferedFor kept.now which.Allocation function (rows_of offers.old.allocation.items) }
    requires offers4 { AreOfferedFor kept.now which.Order function (rows_of offers.old.order.items) }
    ensures opened { IfOk result (λ nodes. IsOpenFunction quorums kept.now function offers.old nodes.items) }
    ensures others { OnOk result (AreTaken function offers.old offers.new) }
    ensures told { IfErr result (λ e. IsRoomFault quorums kept.now function e.room e.fault) }
{
    let _nodes = quorums.nodes();
    let parts = match parts_of(alloc, kept, function) {
        Ok(parts) => parts,
        Err(NoMemory) => return Err(Unopened::no_memory(4 * function)),
    };
    let here = match offers_for(alloc, function, offers) {
        Ok(here) => here,
        Err(NoMemory) => return Err(Unopened::no_memory(4 * function)),
    };
    let drawn = match drawn_for(hall, function) {
        Ok(drawn) => drawn,
        Err(unopened) => return Err(unopened),
    };
    let number = drawn.number();
    let seats = match FunctionRoom::open(alloc, number, parts.as_slice(), here, quorums) {
        Ok(seats) => seats,
        Err(unopened) => return Err(told(function, unopened)),
    };
    match numbered(alloc, drawn, seats) {
        Ok(nodes) => Ok(nodes),
        Err(fault) => Err(Unopened {
            room: 4 * function,
            fault,
        }),
    }
}

/// Draws the number with which the table of a function's rooms opens.
fn drawn_for<H: Naming>(hall: &Hall<H>, function: u16) -> Result<Drawn<H>, Unopened>
    requires { function < 16384 }
    ensures room { IfErr result (λ e. e.room ≡ 4 * function) }
    ensures fault { IfErr result (λ e. (e.fault ≡ fault.NoMemory) ⊎ (e.fault ≡ fault.Spent)) }
{
    match hall.draw() {
        Ok(drawn) => Ok(drawn),
        Err(DrawError::NoMemory) => Err(Unopened::no_memory(4 * function)),
        Err(DrawError::Spent) => Err(Unopened {
            room: 4 * function,
            fault: RoomFault::Spent,
        }),
    }
}

/// Takes the offers for a function out, pass by pass; those for others stay.
fn offers_for(
    alloc: Global,
    function: u16,
    offers: &mut Offered,
) -> Result<FunctionOffers, NoMemory>
    ensures here { IfOk result (λ here. AreHere function offers.old here) }
    ensures others { OnOk result (AreTaken function offers.old offers.new) }
{
    let first = match take_each(alloc, &mut offers.constants, function) {
        Ok(here) => here,
        Err(NoMemory) => return Err(NoMemory),
    };
    let second = match take_each(alloc, &mut offers.expressions, function) {
        Ok(here) => here,
        Err(NoMemory) => return Err(NoMemory),
    };
    let third = match take_each(alloc, &mut offers.allocation, function) {
        Ok(here) => here,
        Err(NoMemory) => return Err(NoMemory),
    };
    let fourth = match take_each(alloc, &mut offers.order, function) {
        Ok(here) => here,
        Err(NoMemory) => return Err(NoMemory),
    };
    Ok(FunctionOffers {
        first,
        second,
        third,
        fourth,
    })
}

/// The room of a function's pass, the first being 1, by its number, and why it is not opened.
fn told(function: u16, unopened: farm_nodes_turn_passes::Unopened) -> Unopened
    requires number { function < 16384 }
    requires some { 0 < unopened.pass }
    requires most { unopened.pass ≤ 4 }
    ensures room { result.room + 1 ≡ 4 * function + unopened.pass }
    ensures fault { result.fault ≡ room_fault unopened.error }
{
    let room = 4 * function + (u16::from(unopened.pass) - 1);
    let fault = match unopened.error {
        RoomError::NoMemory => RoomFault::NoMemory,
        RoomError::Unsettled => RoomFault::Unsettled,
        RoomError::CellRefused => RoomFault::CellRefused,
    };
    Unopened { room, fault }
}
