//! Written offers of the four passes: what is said of each, what the passes and their optimisers make of its input,
//! and which offers are linked. Tells how many rows of each file are answered as they say, and which are not.
//!
//! | Question | Answer |
//! |---|---|
//! | `judged OFFER` | `yes`, `shape`, `node` with a number, or `form` with the number of a fault in the bytes. The calls that judge it agree, what is accepted is written again as it was, and the optimiser's proposal for its input is accepted |
//! | `name OFFER` | the offer's name |
//! | `near OFFER` | `refused`, where each strict front and each longer text is, and `again`, where what is accepted with one byte changed is written so |
//! | `baseline INPUT` | the written offer of the input's baseline, or the number of its refusal |
//! | `baseline_judged INPUT` | what is said of that offer |
//! | `proposed INPUT OUTPUT OTHER` | `both`, where each of 64 seeds leads to one of the two outputs, and both occur |
//! | `varied INPUT` | `yes`, where the seeds from 1 to 16 all lead to accepted offers, and not all to one output |
//! | `drawn COUNT` | `accepted`, where the proposals for so many functions that words choose are, and `changed`, where more than ten differ from the input |
//! | `slots COUNT` | `accepted` likewise for register allocation, and `few`, where fewer than a third as many blocks touch slots as in the baselines |
//! | `order INPUT OUTPUT NODES` | what is said of the order of the nodes, as of an offer |
//! | `arranged INPUT NODES` | what the nodes lay out, or `none` |
//! | `reached INPUT MARKS NODES` | `yes`, where the marks of the nodes that are reached and their list are so |
//! | `linked NAME:INPUT:BESIDE:OFFERS ..` | for each function its name and its last output, or the number of the refusal and the function's |
//! | `constants COUNT MOST OFFER OTHER`, `subexpressions`, `linearized` likewise | `in turn`, where for each number of workers up to the most so many jobs, in turn of the one offer and of the other, are answered yes and no in turn |
//! | `met 2 2 OFFER OTHER` | `met`, where two workers do the two jobs at the same time |
#![tactic(auto)]

mod changes;
mod drawing;
mod judging;
mod kinds;
mod linked;
mod orders;
mod passes;
mod proposing;
mod rows;
mod slots;
mod validations;

use crate::kinds::Kind;
use crate::rows::Rows;
use crate::validations::tell_validations;
use std::io;
use std::sync::Wait;
use std::thread::Threads;
use worked_row_files::{compare, done};

/// Asks for each row of the files that lie beside the program, and tells how many agree. Many validations take threads.
pub fn tell<R: Threads + Wait + Sync>(rt: &HostRuntime, threads: &R) -> io::Result<()> {
    for (name, rows) in [
        ("constants.txt", Rows::Offers(Kind::Constants)),
        ("subexpressions.txt", Rows::Offers(Kind::Subexpressions)),
        ("allocations.txt", Rows::Offers(Kind::Allocations)),
        ("slots.txt", Rows::Slots),
        ("linearized.txt", Rows::Offers(Kind::Linearized)),
        ("orders.txt", Rows::Orders),
        ("linked.txt", Rows::Linked),
    ] {
        let mut rows = rows;
        done!(compare(rt, name, &mut rows));
    }
    tell_validations(rt, threads)
}
