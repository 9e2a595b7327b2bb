//! What the command line says of laying out.

ghost use Rattle.std.specs.Prelude.{IfOk};
ghost use Rattle.cfarm_command_line_tasks.specs.Words.{IsCommand, settle_app};

use crate::joining::{file, with_argument};
use clap::Command;
use std::alloc::{AllocError, Global};

/// The command, with its help.
pub fn settle<'a>(alloc: Global) -> Result<Command<'a>, AllocError>
    ensures { IfOk result (IsCommand settle_app) }
{
    let plain = Command::new(alloc, "settle")
        .about("Lays out one LTL function as Linear code in an order that three nodes agree on")
        .after_help(
            "Prints the agreed Linear code in lower case hex on one line, and then `agreed 3`.\n\nStatus: 0 done; 1 the bytes are refused, by number and name; 2 the command line or the file;\n3 undecided; 4 the output could not be written; 7 no memory.",
        );
    with_argument(Ok(plain), file(alloc, "The bytes of one LTL function"))
}
