//! Three nodes of a room, each on a thread.

ghost use Rattle.std.specs.Prelude.{IfOk};
ghost use Rattle.cfarm_settle_nodes.specs.Goes.{AreSeatsFor};
ghost use Rattle.cfarm_settle_nodes.specs.Nodes.{AreNodes, AreSeatsOf};

use crate::settler::{Settler, seat_of};
use cfarm_settle_nodes::{list_of_three, open, three_of_list};
use farm_nodes_threads_teams::run_threads;
use lang_base::NoMemory;
use linearize_check::Linearize;
use ltl::Function;
use oracle_order::OrderOracle;
use parallel_validate::OpenGate;
use rooms::Seat;
use std::alloc::Global;
use std::sync::Wait;
use std::thread::Threads;

/// How many turns a node takes at most.
const MOST_TURNS: u64 = 10_000;

/// The seats of three nodes of a room, by the nodes' numbers.
pub type Seats = (Seat<Linearize>, Seat<Linearize>, Seat<Linearize>);

/// The nodes of a new room, which have taken no turn.
fn begin<'a>(alloc: Global, input: &'a Function) -> Result<Vec<Settler<'a>>, NoMemory>
    ensures { IfOk result (λ all. AreNodes (λ s. s.node.seat) (λ s. s.node.input.now) input.now all.items) }
{
    let (first, second, third) = open(alloc, (OrderOracle, OrderOracle, OrderOracle), input)?;
    let all = list_of_three(
        alloc,
        Settler::new(first),
        Settler::new(second),
        Settler::new(third),
    )?;
    Ok(all)
}

/// Their seats, if no memory was refused to one of them.
fn seats_of(all: Vec<Settler<'_>>) -> Option<Seats>
    ensures { AreSeatsOf (λ s. s.node.seat) (λ s. s.node.input.now) all.entry.items result }
{
    let Some((first, second, third)) = three_of_list(all) else {
        return None;
    };
    let Some(one) = seat_of(first) else {
        return None;
    };
    let Some(two) = seat_of(second) else {
        return None;
    };
    match seat_of(third) {
        Some(three) => Some((one, two, three)),
        None => None,
    }
}

/// The three nodes of a room that is opened take their turns, each on a thread. A thread that can't be made is told as want of memory.
pub(crate) fn play_all<R: Threads + Wait>(
    rt: &R,
    alloc: Global,
    input: &Function,
) -> Result<Seats, NoMemory>
    ensures { IfOk result (AreSeatsFor input.now) }
{
    let Ok(all) = begin(alloc, input) else {
        return Err(NoMemory);
    };
    let Ok(all) = run_threads(rt, alloc, all, MOST_TURNS, 3, &OpenGate) else {
        return Err(NoMemory);
    };
    match seats_of(all) {
        Some(seats) => Ok(seats),
        None => Err(NoMemory),
    }
}
