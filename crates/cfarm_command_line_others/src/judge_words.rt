//! What the command line says of an offer that is judged.

ghost use Rattle.std.specs.Prelude.{◌≡◌, IfOk, IfSome, IsNone};
ghost use Rattle.clap.specs.Words.{found_of, rows_of};
ghost use Rattle.cfarm_command_line_tasks.specs.declared.task.OfferAt.{OfferAt};
ghost use Rattle.cfarm_command_line_tasks.specs.Words.{IsCommand, IsOfferAt, judge_app};

use crate::joining::{file, needed, with_argument};
use cfarm_command_line_tasks::OfferAt;
use clap::{ArgMatches, Command};
use std::alloc::{AllocError, Global};

/// The option with the function's name.
const FUNCTION: &str = "function";

/// The option with the written offer.
const OFFER: &str = "offer";

/// The command, with its help.
pub fn judge<'a>(alloc: Global) -> Result<Command<'a>, AllocError>
    ensures { IfOk result (IsCommand judge_app) }
{
    let plain = Command::new(alloc, "judge")
        .about("Says whether a pass accepts a written offer for a function of a C program")
        .after_help(
            "The offer's first byte says of which pass it is. One of the first pass has to begin with the RTL of\nthe function. Prints `accepted pass K`.\n\nStatus: 0 done; 1 the text or the offer is refused, by number and name; 2 the command line or a\nfile; 4 the output could not be written; 7 no memory.",
        );
    let named = with_argument(Ok(plain), file(alloc, "A C text"));
    let pointed = with_argument(
        named,
        needed(
            alloc,
            FUNCTION,
            "NAME",
            "The function that the offer is for",
        ),
    );
    with_argument(
        pointed,
        needed(
            alloc,
            OFFER,
            "PATH",
            "The written offer: an input, an output and a certificate",
        ),
    )
}

/// For which function the offer is, and its file; none where one is not named, which `clap` refuses.
pub fn offer_of<'a>(words: &ArgMatches<'a>) -> Option<OfferAt<'a>>
    ensures some { IfSome result (IsOfferAt (rows_of (found_of words.now))) }
    ensures none { IsNone result → (o : OfferAt) → IsOfferAt (rows_of (found_of words.now)) o → ⊥ }
{
    let Some(function) = words.get_str(FUNCTION) else {
        return None;
    };
    let Some(path) = words.get_str(OFFER) else {
        return None;
    };
    Some(OfferAt { function, path })
}
