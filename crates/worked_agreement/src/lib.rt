//! Rows about agreement: what is settled, nodes call by call, the steps of the protocol's slow reference, and random
//! schedules of nodes, each call compared with the reference. Tells how many rows of each file are answered as they say.
//!
//! | Question | Answer |
//! |---|---|
//! | `settled PARTS`, `settled SIZES PARTS` | `yes` or `no`: whether a room may open with these kept parts |
//! | `kept PART` | the part with these entries, or `none` |
//! | `calls SIZES CALLS` | what the nodes answer to each call, a message or `yes` or `no` |
//! | `steps SIZES STEPS` | of each step in turn, the message that it sends, or `yes` where it sends none, or `no` where it is not allowed |
//! | `random SIZES STREAMS TURNS` | `learned`, where in more than half of the schedules a value is, and each call is a step that the reference allows, or none where it allows none |
//! | `alike SIZES STREAMS TURNS` | `alike`, where the same holds of each call, whether a value is learned or not |
//!
//! Sizes of quorums are `NODES,PROMISE,ACCEPT`, or `NODES` where both kinds are more than half of the nodes.
//!
//! A kept part is `OFFERED,STARTED,PROMISED,BALLOT,VALUE`, with ballot 0 for no vote; parts, calls and steps have semicolons
//! between. A call is `offer NODE`, `start NODE`, `propose NODE`, `learned NODE`, `again NODE` (a restart), `opened NODE BALLOT` (a
//! restart with that ballot started and promised) or `on NODE MESSAGE`. A message is `prepare BALLOT`, `promise FROM BALLOT VOTE`,
//! `propose BALLOT VALUE` or `accepted FROM BALLOT VALUE`; a vote is a ballot and a value, `0 0` for none.
#![tactic(auto)]

mod calls;
mod kept_parts;
mod nodes;
mod rows;
mod schedules;
mod steps;
mod words;

use crate::rows::Rows;
use std::io;
use worked_row_files::{compare, done};

/// Asks for each row of the files that lie beside the program, and tells how many agree.
pub fn tell(rt: &HostRuntime) -> io::Result<()> {
    done!(compare(rt, "settled.txt", &mut Rows));
    done!(compare(rt, "settled-sizes.txt", &mut Rows));
    compare(rt, "protocol.txt", &mut Rows)
}
