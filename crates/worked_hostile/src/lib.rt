//! Farms on disks in memory, under hostile use: what they answer where journals are forged, exchanged, cut and changed, and
//! where disks fail and stop. Tells how many rows of the file are answered as they say, and which are not.
//!
//! | Question | Answer |
//! |---|---|
//! | `forged SIZES RECORDS TEXT` | what opening over these journals tells: the records of a node have commas between, those of the nodes `;`, and `-` is none. A record is its bytes in hex |
//! | `exchanged SIZES - TEXT` | what opening tells over the journals of a whole farm, of which the first two are exchanged |
//! | `edited SIZES - TEXT` | the same over those of the text with a blank behind |
//! | `joined SIZES - TEXT` | the same over those of a whole farm of three nodes, as many as are needed, and empty disks behind |
//! | `crossed SIZES - TEXT` | what a build tells over the journals of a whole farm in which the first two functions have exchanged their rooms |
//! | `unread SIZES - TEXT` | `linked`, where opening over the journals of a whole farm tells each call of a disk that fails, and a farm on the disks that come back links what was linked |
//! | `migrated SIZES - TEXT` | `linked`, where opening over the journals of a whole farm in an older form tells each call of a pair of disks that fails, and a farm on what a crash leaves of the pairs that come back, some with an old journal still, links what was linked, and leaves no old journal that counts |
//! | `stopped SIZES STEP TEXT` | `linked`, where farms whose disks all stop, so many calls later each, and crash, open again, link all functions, and those that a node had linked with the same code. While the first journal is made it may also be refused as none, as bad or as another's |
//! | `swept SIZES STEP TEXT` | `answered`, where a farm opens, or is refused for the node's journal or for a room that is not settled, with each journal of a whole farm cut at each length and with each of its bytes changed, one at a time: at every so many bytes |
//!
//! Sizes of quorums are `NODES,PROMISE,ACCEPT`, or `NODES` where both kinds are more than half of the nodes.
//!
//! What opening tells is `opened`, and what a build tells `linked`; or a status and a line. A farm is whole once its nodes have learned in
//! all rooms.
#![tactic(auto)]

mod answers;
mod crossed;
mod farms;
mod forged;
mod migrated;
mod rows;
mod stopped;
mod strangers;
mod swept;
mod unread;

use crate::farms::told;
use crate::rows::row_of;
use std::sync::Wait;
use std::thread::Threads;
use std::{fs, io};
use worked_row_files::{Count, done, question_of, some};

/// The file of the rows.
const HOSTILE: &str = "hostile.txt";

/// What is told of a question; none where it is no question.
fn answer<R: Threads + Wait + Sync>(
    rt: &HostRuntime,
    threads: &R,
    question: &str,
) -> Option<String> {
    let row = some!(row_of(rt.alloc(), question));
    told(threads, rt.alloc(), row)
}

/// Asks for each row of the text, and tells how many agree.
fn tell_lines<R: Threads + Wait + Sync>(
    rt: &HostRuntime,
    threads: &R,
    text: &str,
) -> io::Result<()> {
    let mut count = Count::none();
    for line in text.lines() {
        if let Some(question) = question_of(line) {
            let told = answer(rt, threads, question);
            done!(count.add(rt, HOSTILE, line, told));
        }
    }
    count.tell(rt, HOSTILE)
}

/// Asks for each row of the file that lies beside the program, and tells how many agree. The farms take threads.
pub fn tell<R: Threads + Wait + Sync>(rt: &HostRuntime, threads: &R) -> io::Result<()> {
    let text = done!(fs::read_to_string(rt, HOSTILE));
    tell_lines(rt, threads, text.as_str())
}
