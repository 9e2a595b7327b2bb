//! Functions and programs in their forms, and what runs of programs show. Tells how many rows of each file are answered
//! as they say, and which are not.
//!
//! | Question | Answer |
//! |---|---|
//! | `form LANGUAGE BYTES` | `ok` with the number of bytes that are a function, which is copied and written as just these, or `no` with the number of the fault |
//! | `near LANGUAGE BYTES` | `short`, where each strict front is, and `again`, where what is read with one byte changed is written so |
//! | `same LANGUAGE BYTES BYTES` | `yes` or `no`: whether both functions are equal |
//! | `blocks COUNT`, `skips COUNT` | what `form` says of a function of Cminor that is a skip in so many blocks, or a sequence of so many skips |
//! | `program LANGUAGE BYTES` | `ok`, where all bytes are a program, which is written again, or `no` with the number of the fault |
//! | `run LIMIT PROGRAM` | how the run of a program of RTL stands at the limit, and what it has printed, or `-` |
//! | `full LIMIT PROGRAM` | what a writer with space for three bytes makes of the run, and what it has |
//! | `nodes LIMIT BYTES` | where the nodes of a function of RTL stop, the node behind it, and what is left of the limit |

use crate::form_rows::Rows;
use std::io;
use worked_row_files::{compare, done};

/// Asks for each row of the files that lie beside the program, and tells how many agree.
pub fn tell_forms(rt: &HostRuntime) -> io::Result<()> {
    for name in [
        "cminor.txt",
        "rtl.txt",
        "ltl.txt",
        "linear.txt",
        "programs.txt",
        "runs.txt",
    ] {
        done!(compare(rt, name, &mut Rows));
    }
    Ok(())
}
