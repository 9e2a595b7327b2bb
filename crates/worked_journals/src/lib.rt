//! Journals with known answers: each row of a file is asked for, and those that are answered otherwise are told.
//!
//! | Question | Answer |
//! |---|---|
//! | `read HEADER JOURNAL` | how many records the bytes stand for, or the number of the fault. As in the file that the rows come from, a ballot 0 or a value that is no node is 403 |
//! | `list HEADER JOURNAL` | the records: the code of each, its room and its numbers |
//! | `order HEADER JOURNAL` | how many records the bytes stand for, where they keep the order, or the number of the fault |
//! | `create HEADER BYTES` | the bytes of a disk, once a new journal was made over these |
//! | `open HEADER JOURNAL` | how many records are listed where the bytes lie on a disk, or the number of the fault |
//! | `cuts HEADER JOURNAL` | what each front of the journal stands for, from no bytes to all: the records or the name of the fault, with how often it comes in a row |
//! | `changed-AT HEADER JOURNAL` | the same with the byte at that place set to 0, 1, .. 255 |
//! | `again HEADER JOURNAL` | `yes`, where the records that the bytes stand for, appended to a new journal, make those bytes |
//! | `migrate HEADER JOURNAL` | the new journal that an old one becomes, which counts no more, or the number of the refusal, where nothing was written |
//! | `over HEADER JOURNAL` | the same, where it is made anew over each front of it, over it with a byte changed and over it with bytes behind it, and opened whatever byte the old journal begins with |
//! | `stopped HEADER JOURNAL` | the same, where with each call of the disks failing in turn, or each from one on, the pair is opened with it, under 16 crashes each and without one |
//! | `crashes APPENDS CALLS` | `yes`, where with each of so many calls of the disk failing in turn, and 16 crashes behind each, a journal that tells the failure and then that it has stopped opens with what was acknowledged, with one record more or without |
//!
//! A journal is read in the form of the header that is asked for: `CFJ2`, or the two earlier ones.
#![tactic(auto)]

mod again;
mod changes;
mod crashes;
mod forms;
mod migrations;
mod rows;

use crate::rows::Rows;
use std::io;
use worked_row_files::{compare, done};

/// Asks for each row of the files that lie beside the program, and tells how many agree.
pub fn tell(rt: &HostRuntime) -> io::Result<()> {
    done!(compare(rt, "journals.txt", &mut Rows));
    done!(compare(rt, "changed.txt", &mut Rows));
    compare(rt, "migrations.txt", &mut Rows)
}
