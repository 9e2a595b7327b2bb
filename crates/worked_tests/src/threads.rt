//! Two seats of a room of three on two threads: a look that loads nothing would never see the other's step. The same of the
//! seats of a function, in two passes: a step in one shows nothing in the other.

ghost use Rattle.std.specs.Prelude.{◌<◌, ◌≤◌, IsTrue};
ghost use Rattle.rooms_function.specs.Pass.{words_in};

use crate::opened::{function_seats, majority_seats};
use paxos_core_world::kept::Kept;
use rooms_function::FunctionSeat;
use rooms_seat::WordSeat;
use std::thread::{self, Threads};

/// How often a seat looks for the other's step.
const LOOKS: u32 = 1_000_000;

/// A seat that looks for the other's steps.
trait Looks {
    /// Node 0 starts ballots, and sees that node 1 promises them.
    fn is_promised(&mut self) -> bool;

    /// Node 1 sees that node 0 starts ballots, and promises them.
    fn promises(&mut self) -> bool;
}

impl Looks for WordSeat {
    fn is_promised(&mut self) -> bool {
        let Ok(ballot) = self.start() else {
            return false;
        };
        for _ in 0..LOOKS {
            if self.count() < 3 {
                return false;
            }
            if self.look_acceptor(1).promised == ballot {
                return true;
            }
            thread::yield_now();
        }
        false
    }

    fn promises(&mut self) -> bool {
        for _ in 0..LOOKS {
            if self.count() < 3 {
                return false;
            }
            let _seen = self.look_proposer(0);
            if self.count() < 3 {
                return false;
            }
            if self.promise(0).is_some() {
                return true;
            }
            thread::yield_now();
        }
        false
    }
}

impl Looks for FunctionSeat {
    /// A ballot in the first pass, and only once it is promised one in the fourth.
    fn is_promised(&mut self) -> bool {
        is_promised_in(self, 1) && is_promised_in(self, 4)
    }

    /// The ballot in the first pass, of which the fourth shows nothing before, and then that in the fourth.
    fn promises(&mut self) -> bool {
        if !has_three(self, 4) || self.look_proposer(4, 0).started != 0 {
            return false;
        }
        promises_in(self, 1) && promises_in(self, 4)
    }
}

/// Whether the room of a pass has a third node.
fn has_three(seat: &FunctionSeat, pass: u8) -> bool
    ensures { IsTrue result → 2 < (words_in pass seat.now).node.quorums.nodes }
{
    let count = match pass {
        1 => seat.first.words.count(),
        2 => seat.second.words.count(),
        3 => seat.third.words.count(),
        _ => seat.fourth.words.count(),
    };
    count > 2
}

/// Starts a ballot in the room of a pass, and looks at node 1's acceptor until it has promised it.
fn is_promised_in(seat: &mut FunctionSeat, pass: u8) -> bool
    requires some { 0 < pass }
    requires most { pass ≤ 4 }
{
    let Ok(ballot) = seat.start(pass) else {
        return false;
    };
    for _ in 0..LOOKS {
        if !has_three(seat, pass) {
            return false;
        }
        if seat.look_acceptor(pass, 1).promised == ballot {
            return true;
        }
        thread::yield_now();
    }
    false
}

/// Looks at node 0's proposer in the room of a pass until it has started a ballot, and promises it.
fn promises_in(seat: &mut FunctionSeat, pass: u8) -> bool
    requires some { 0 < pass }
    requires most { pass ≤ 4 }
{
    for _ in 0..LOOKS {
        if !has_three(seat, pass) {
            return false;
        }
        let _seen = seat.look_proposer(pass, 0);
        if !has_three(seat, pass) {
            return false;
        }
        if seat.promise(pass, 0).is_some() {
            return true;
        }
        thread::yield_now();
    }
    false
}

/// Whether the first two seats, each on a thread, see each other's steps.
fn see_each_other<R: Threads, S: Looks + Send>(rt: &R, seats: &mut [S]) -> bool {
    let Some((first, others)) = seats.split_first_mut() else {
        return false;
    };
    let Some(second) = others.first_mut() else {
        return false;
    };
    let both = thread::join(rt, || first.is_promised(), || second.promises());
    both.0 && both.1
}

#[test]
fn two_threads_see_each_other(rt: HostRuntime) {
    let nothing = Kept::nothing();
    let mut seats = majority_seats(rt.alloc(), &[nothing, nothing, nothing], 3);
    assert!(rt; see_each_other(&rt, &mut seats));
}

#[test]
fn two_threads_see_each_other_in_two_passes(rt: HostRuntime) {
    let mut seats = function_seats(rt.alloc());
    assert!(rt; see_each_other(&rt, &mut seats));
}
