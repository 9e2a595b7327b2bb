//! What the command line says of a run of a C program.

ghost use Rattle.std.specs.Prelude.{codes, IfOk};
ghost use Rattle.clap.specs.Words.{found_of, first_of, rows_of};
ghost use Rattle.cfarm_command_line_tasks.specs.Words.{IsArgument, IsCommand, ReadsBound};
ghost use Rattle.cfarm_command_line_tasks.specs.Words.{depth_rule, interpret_app};

use cfarm_command_line_others::{bound_in, explain, file, unbounded, with_argument};
use cfarm_command_line_tasks::{Bounds, Choices};
use clap::builder::ValueParser;
use clap::{Arg, ArgMatches, Command};
use std::alloc::{AllocError, Global};

/// The option that bounds a run of a C program.
const DEPTH: &str = "depth";

/// The greatest bound of a run of a C program.
const GREATEST_DEPTH: u64 = 4_294_967_295;

fn depth<'a>(alloc: Global, bounds: Bounds, choices: Choices<'a>) -> Arg<'a>
    ensures { IsArgument (depth_rule bounds choices.entry) result }
{
    match bounds {
        Bounds::Counted => Arg::new(alloc, DEPTH)
            .long(DEPTH)
            .value_name("N")
            .help("How many turns and calls may nest, 0 to 4294967295, or `none`")
            .value_parser(ValueParser::Unsigned(0, GREATEST_DEPTH))
            .default_value("100000"),
        Bounds::Unbounded => unbounded(alloc, DEPTH, choices),
    }
}

pub(crate) fn interpret<'a>(
    alloc: Global,
    bounds: Bounds,
    choices: Choices<'a>,
) -> Result<Command<'a>, AllocError>
    ensures { IfOk result (IsCommand (interpret_app bounds choices.entry)) }
{
    let plain = Command::new(alloc, "interpret")
        .about("Runs a C program as the C standard means it")
        .after_help(
            "Writes what the program prints, and closes on standard error with `ended R`, `wrong` or `running`.\nWhere it went wrong, a terminal shows behind that line the place, the cause with its values, and the\ncalls that were under way; with --explain so does any standard error.\n\nStatus: 0 ended; 1 the text is refused, by number, name and byte offset; 2 the command line or\nthe file; 4 the output could not be written; 5 the program went wrong; 6 the bound was reached;\n7 no memory.",
        );
    let named = with_argument(Ok(plain), file(alloc, "A C text"));
    let bounded = with_argument(named, depth(alloc, bounds, choices));
    with_argument(bounded, explain(alloc))
}

/// The bound of a run of a C program.
pub(crate) fn depth_of(words: &ArgMatches<'_>) -> u64
    ensures { ReadsBound (first_of (codes "depth") (rows_of (found_of words.now))) result }
{
    bound_in(words, DEPTH)
}
