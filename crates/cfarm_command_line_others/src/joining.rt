//! Commands, one argument and one command after the other. Memory that is refused on the way is the answer of all that follows.

ghost use Rattle.std.specs.Prelude.{Ok};
ghost use Rattle.cfarm_command_line_tasks.specs.Words.{AddsArgument, AddsCommand, IsArgument, file_rule, needed_rule};

use clap::builder::ValueParser;
use clap::{Arg, Command};
use std::alloc::{AllocError, Global};

/// The argument that names a file.
pub const FILE: &str = "FILE";

/// The argument that names a file.
pub fn file<'a>(alloc: Global, help: &'a str) -> Arg<'a>
    ensures { IsArgument file_rule result }
{
    Arg::new(alloc, FILE).help(help).required(true)
}

/// An option with a name of a file, a folder or a function, which has to be given and is not empty.
pub fn needed<'a>(alloc: Global, name: &'a str, value: &'a str, help: &'a str) -> Arg<'a>
    ensures { IsArgument (needed_rule name.entry.now) result }
{
    Arg::new(alloc, name)
        .long(name)
        .value_name(value)
        .help(help)
        .value_parser(ValueParser::NonEmptyString)
        .required(true)
}

/// The command with one more argument.
pub fn with_argument<'a>(
    command: Result<Command<'a>, AllocError>,
    argument: Arg<'a>,
) -> Result<Command<'a>, AllocError>
    ensures { AddsArgument command.entry argument.entry result }
{
    match command {
        Ok(command) => command.arg(argument),
        Err(fault) => Err(fault),
    }
}

/// The same where the command is there.
fn with_part<'a>(
    command: Command<'a>,
    part: Result<Command<'a>, AllocError>,
) -> Result<Command<'a>, AllocError>
    ensures { AddsCommand (Ok command.entry) part.entry result }
{
    match part {
        Ok(part) => command.subcommand(part),
        Err(fault) => Err(fault),
    }
}

/// The command with one more command in it.
pub fn with_command<'a>(
    command: Result<Command<'a>, AllocError>,
    part: Result<Command<'a>, AllocError>,
) -> Result<Command<'a>, AllocError>
    ensures { AddsCommand command.entry part.entry result }
{
    match command {
        Ok(command) => with_part(command, part),
        Err(fault) => Err(fault),
    }
}
