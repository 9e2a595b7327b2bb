//! Farms of compiler nodes on disks in memory: what the nodes agree on, link and run, also where disks fail and all crash. Tells how
//! many rows of the file are answered as they say, and which are not. The farms of all rows but the first kind have three nodes.
//!
//! | Question | Answer |
//! |---|---|
//! | `SIZES WORKERS SEED TEXT` | what a farm with these quorums (`NODES` for majorities, or `NODES,PROMISE,ACCEPT`), whose turns so many threads take, links for the C text, where all nodes met and link one program: its output in hex, `-` for none, and its closing line |
//! | `fixed TEXT` | `one`, where the offers of the first function's last room in the journals are all the one that every node's optimiser makes, which has none for the other passes |
//! | `together TEXT` | `met`, where a turn of node 0 was held until one of node 1 had ended |
//! | `failing CRASHES TEXT` | `linked`, where all nodes link one program although the calls of a node's disk failed, one in each farm, the node stopped, and was restarted over what a crash left: so many crashes of each failure, drawn by sixteen generators in turn |
//! | `reopened TEXT` | `linked`, where farms that crash as a whole, each a call of the disks later, are opened again, and link one program, which is what was linked before |
//! | `stranger TEXT` | `stopped`, where a node that is restarted over another node's disk, or over its own of another farm, comes back stopped, and goes on over its own |
#![tactic(auto)]

mod failing;
mod farms;
mod fixed;
mod linking;
mod reopened;
mod rows;
mod stranger;
mod together;
mod turning;

use crate::farms::told;
use crate::rows::row_of;
use std::sync::Wait;
use std::thread::Threads;
use std::{fs, io};
use worked_row_files::{Count, done, question_of, some};

/// The file of the rows.
const FARMS: &str = "farms.txt";

/// What a farm links and runs; none where the question asks for no farm.
fn answer<R: Threads + Wait + Sync>(
    rt: &HostRuntime,
    threads: &R,
    question: &str,
) -> Option<String> {
    let row = some!(row_of(rt.alloc(), question));
    told(threads, rt.alloc(), row)
}

/// Asks for each row of the text, and tells how many agree.
fn tell_lines<R: Threads + Wait + Sync>(
    rt: &HostRuntime,
    threads: &R,
    text: &str,
) -> io::Result<()> {
    let mut count = Count::none();
    for line in text.lines() {
        if let Some(question) = question_of(line) {
            let told = answer(rt, threads, question);
            done!(count.add(rt, FARMS, line, told));
        }
    }
    count.tell(rt, FARMS)
}

/// Asks for each row of the file that lies beside the program, and tells how many agree. The farms take threads.
pub fn tell<R: Threads + Wait + Sync>(rt: &HostRuntime, threads: &R) -> io::Result<()> {
    let text = done!(fs::read_to_string(rt, FARMS));
    tell_lines(rt, threads, text.as_str())
}
