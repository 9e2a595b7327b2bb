//! What the command line says of the text of a program.

ghost use Rattle.std.specs.Prelude.{IfOk};
ghost use Rattle.cfarm_command_line_tasks.specs.Words.{IsCommand, show_app};

use crate::joining::{file, with_argument};
use clap::Command;
use std::alloc::{AllocError, Global};

/// The command, with its help.
pub fn show<'a>(alloc: Global) -> Result<Command<'a>, AllocError>
    ensures { IfOk result (IsCommand show_app) }
{
    let plain = Command::new(alloc, "show")
        .about("Prints a program of any of the four languages, or a written offer, as text")
        .after_help(
            "Prints one instruction a line. Programs with equal texts are equal, and so are offers, so `diff` of\ntwo texts tells where they differ.\n\nStatus: 0 done; 1 the bytes are refused, by number and name; 2 the command line or the file;\n4 the output could not be written; 7 no memory.",
        );
    with_argument(
        Ok(plain),
        file(alloc, "The bytes of a program or of an offer"),
    )
}
