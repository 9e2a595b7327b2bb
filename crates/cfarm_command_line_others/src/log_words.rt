//! What the command line says of the records of a journal.

ghost use Rattle.std.specs.Prelude.{IfOk};
ghost use Rattle.cfarm_command_line_tasks.specs.Words.{IsCommand, list_app};

use crate::joining::{file, with_argument};
use clap::Command;
use std::alloc::{AllocError, Global};

/// The command, with its help.
pub fn list<'a>(alloc: Global) -> Result<Command<'a>, AllocError>
    ensures { IfOk result (IsCommand list_app) }
{
    let plain = Command::new(alloc, "log")
        .about("Lists the records of a node's journal")
        .after_help(
            "Prints what the journal is of, a line for each record that opening it would take, and how many\nthese are.\n\nStatus: 0 done; 2 the command line or the file; 4 the journal has a fault, by number, name and byte\noffset behind what stands before it, or the output could not be written; 7 no memory.",
        );
    with_argument(Ok(plain), file(alloc, "A journal, as `node0.cf2`"))
}
