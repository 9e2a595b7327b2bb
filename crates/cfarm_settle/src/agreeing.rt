//! The code that three nodes agree on.

ghost use Rattle.std.specs.Prelude.{IfOk, IfSome};
ghost use Rattle.cfarm_settle_nodes.specs.Goes.{AreSeatsFor};
ghost use Rattle.cfarm_settle.specs.LaidOut.{AgreeOn};

use crate::playing::{Seats, play_all};
use cfarm_settle_nodes::code_agreed;
use lang_base::NoMemory;
use ltl::Function;
use std::alloc::Global;
use std::sync::Wait;
use std::thread::Threads;

/// The code that three seats agree on whose nodes have taken their turns, and the seats as they have met.
fn code_of_three(
    alloc: Global,
    seats: Seats,
    input: &Function,
) -> Result<Option<(Vec<u8>, Seats)>, NoMemory>
    requires { AreSeatsFor input.now seats }
    ensures { IfOk result (λ found. IfSome found (λ it. AgreeOn it.1 input.now it.0.items)) }
{
    let (mut first, mut second, mut third) = seats;
    match code_agreed(alloc, &mut first, &mut second, &mut third) {
        Ok(Some(code)) => Ok(Some((code, (first, second, third)))),
        Ok(None) => Ok(None),
        Err(_) => Err(NoMemory),
    }
}

/// Opens a room of three nodes, each on a thread, which agree on an order of the function's blocks: the bytes of the Linear code in it,
/// and the seats of the nodes as they have met. Each node offers what the optimiser of orders draws. None where the nodes have not all
/// learned one node's offer.
pub fn agree<R: Threads + Wait>(
    rt: &R,
    alloc: Global,
    input: &Function,
) -> Result<Option<(Vec<u8>, Seats)>, NoMemory>
    ensures { IfOk result (λ found. IfSome found (λ it. AgreeOn it.1 input.now it.0.items)) }
{
    match play_all(rt, alloc, input) {
        Ok(seats) => code_of_three(alloc, seats, input),
        Err(_) => Err(NoMemory),
    }
}
