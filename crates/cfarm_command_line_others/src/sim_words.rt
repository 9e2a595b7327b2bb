//! What the command line says of a schedule.

ghost use Rattle.std.specs.Prelude.{◌≡◌, Some, codes, IfOk, IfSome, IsNone};
ghost use Rattle.clap.specs.Words.{first_of, first_value, found_of, rows_of};
ghost use Rattle.cfarm_command_line_tasks.specs.Words.{IsArgument, IsCommand, IsNoWord, showing_word, sim_app, svg_rule};

use crate::joining::{file, with_argument};
use cfarm_command_line_tasks::Showing;
use clap::{Arg, ArgAction, ArgMatches, Command};
use std::alloc::{AllocError, Global};

/// The option that asks for a drawing.
const SVG: &str = "svg";

pub fn sim<'a>(alloc: Global) -> Result<Command<'a>, AllocError>
    ensures { IfOk result (IsCommand sim_app) }
{
    let plain = Command::new(alloc, "sim")
        .about("Plays a schedule of the nodes of one room, call by call")
        .after_help(
            "Prints a line for each command of the schedule, and at its end what each node has learned; with\n--svg a drawing that has these lines as its labels, or nothing where a line is refused.\n\nStatus: 0 done; 2 the command line, the file or a line of the schedule, by its number;\n4 the output could not be written; 7 no memory.",
        );
    let named = with_argument(
        Ok(plain),
        file(
            alloc,
            "A schedule: `nodes 3`, and then a command on each line",
        ),
    );
    with_argument(named, svg(alloc))
}

/// The option that asks for a drawing.
fn svg<'a>(alloc: Global) -> Arg<'a>
    ensures { IsArgument svg_rule result }
{
    Arg::new(alloc, SVG)
        .long(SVG)
        .help("Draws the run in SVG: a lane for each node, an arrow for each message handed over")
        .action(ArgAction::SetTrue)
}

/// How a schedule is to be shown; `clap` finds one of the two words.
pub fn showing_of(words: &ArgMatches<'_>) -> Option<Showing>
    ensures some { IfSome result (λ s. first_of (codes "svg") (rows_of (found_of words.now)) ≡ Some (showing_word s)) }
    ensures none { IsNone result → IsNoWord showing_word (first_of (codes "svg") (rows_of (found_of words.now))) }
{
    showing_found(words)
}

fn showing_found(words: &ArgMatches<'_>) -> Option<Showing>
    ensures some { IfSome result (λ s. first_value (found_of words.now) (codes "svg") ≡ Some (showing_word s)) }
    ensures none { IsNone result → IsNoWord showing_word (first_value (found_of words.now) (codes "svg")) }
{
    match words.get_str(SVG) {
        Some("false") => Some(Showing::Lines),
        Some("true") => Some(Showing::Drawing),
        _ => None,
    }
}
