//! The bound of a run: a number, or the word for none.

ghost use Rattle.std.specs.Prelude.{◌≡◌};
ghost use Rattle.clap.specs.Words.{found_of, first_of, rows_of};
ghost use Rattle.cfarm_command_line_tasks.specs.Words.{IsArgument, ReadsBound, SaysBound, unbounded_rule};

use cfarm_command_line_tasks::Choices;
use clap::builder::ValueParser;
use clap::{Arg, ArgMatches};
use std::alloc::Global;

/// The option of this name that takes the word for none alone.
pub fn unbounded<'a>(alloc: Global, name: &'a str, choices: Choices<'a>) -> Arg<'a>
    ensures { IsArgument (unbounded_rule name.entry.now choices.entry) result }
{
    Arg::new(alloc, name)
        .long(name)
        .value_name("N")
        .help("As many as there are")
        .value_parser(ValueParser::Names(choices.unbounded))
        .required(true)
}

/// The bound that a text says. None is the greatest number of 64 bits, which no run reaches in a century.
#[tactic(auto, using(crate::proofs::Commands::says_none, crate::proofs::Commands::says_number))]
fn bound_of(text: &str) -> u64
    ensures { SaysBound text.now result }
{
    if text == "none" {
        u64::MAX
    } else {
        text.parse().unwrap_or(0)
    }
}

/// The bound that is found of the option of this name.
pub fn bound_in(words: &ArgMatches<'_>, name: &str) -> u64
    ensures { ReadsBound (first_of name.now (rows_of (found_of words.now))) result }
{
    match words.get_str(name) {
        Some(text) => bound_of(text),
        None => 0,
    }
}
