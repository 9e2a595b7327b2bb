//! What the command line says of a check and of a run.

ghost use Rattle.std.specs.Prelude.{◌≡◌, codes, IfOk, IfSome, IsNone};
ghost use Rattle.clap.specs.Words.{found_of, first_of, first_value, rows_of};
ghost use Rattle.cfarm_command_line_tasks.specs.Words.{IsArgument, IsCommand, IsNoFormat, ReadsBound, ReadsSigned, check_app, exec_app, format_word};
ghost use Rattle.cfarm_command_line_tasks.specs.Words.{expect_rule, format_rule, limit_rule};

use crate::bound_words::{bound_in, unbounded};
use crate::explain_words::explain;
use crate::joining::{file, with_argument};
use cfarm_command_line_tasks::{Bounds, Choices, Format};
use clap::builder::ValueParser;
use clap::{Arg, ArgMatches, Command};
use std::alloc::{AllocError, Global};

/// The option that says how a refusal is told.
const FORMAT: &str = "format";

/// The option that bounds a run of a linked program.
const LIMIT: &str = "limit";

/// The option that says with what a linked program is to end.
const EXPECT: &str = "expect";

/// The greatest bound of a run of a linked program.
const GREATEST_LIMIT: u64 = 9_223_372_036_854_775_807;

/// The least and the greatest result of a program.
const LEAST_RESULT: i64 = -2_147_483_648;

const GREATEST_RESULT: i64 = 2_147_483_647;

fn form<'a>(alloc: Global, choices: Choices<'a>) -> Arg<'a>
    ensures { IsArgument (format_rule choices.entry) result }
{
    Arg::new(alloc, FORMAT)
        .long(FORMAT)
        .value_name("FORMAT")
        .help("How a refusal is told: for editors or as JSON")
        .value_parser(ValueParser::Names(choices.formats))
}

pub fn check<'a>(alloc: Global, choices: Choices<'a>) -> Result<Command<'a>, AllocError>
    ensures { IfOk result (IsCommand (check_app choices.entry)) }
{
    let plain = Command::new(alloc, "check")
        .about("Checks a C program")
        .after_help(
            "Prints `ok F functions G globals`: how many functions have bodies, and how many globals there are.\n\nStatus: 0 done; 1 the text is refused, by number, name and byte offset; 2 the command line or the\nfile; 4 the output could not be written; 7 no memory.",
        );
    let named = with_argument(Ok(plain), file(alloc, "A C text"));
    with_argument(named, form(alloc, choices))
}

fn limit<'a>(alloc: Global, bounds: Bounds, choices: Choices<'a>) -> Arg<'a>
    ensures { IsArgument (limit_rule bounds choices.entry) result }
{
    match bounds {
        Bounds::Counted => Arg::new(alloc, LIMIT)
            .long(LIMIT)
            .value_name("N")
            .help("How many instructions, 0 to 9223372036854775807, or `none`")
            .value_parser(ValueParser::Unsigned(0, GREATEST_LIMIT))
            .default_value("1000000"),
        Bounds::Unbounded => unbounded(alloc, LIMIT, choices),
    }
}

fn expect<'a>(alloc: Global) -> Arg<'a>
    ensures { IsArgument expect_rule result }
{
    Arg::new(alloc, EXPECT)
        .long(EXPECT)
        .value_name("R")
        .help("With what the program is to end, else the status is 5; one below 0 with `=`")
        .value_parser(ValueParser::Signed(LEAST_RESULT, GREATEST_RESULT))
}

pub fn exec<'a>(
    alloc: Global,
    bounds: Bounds,
    choices: Choices<'a>,
) -> Result<Command<'a>, AllocError>
    ensures { IfOk result (IsCommand (exec_app bounds choices.entry)) }
{
    let plain = Command::new(alloc, "exec")
        .about("Runs a linked program")
        .after_help(
            "Writes what the program prints, and closes on standard error with `ended R`, `wrong` or `running`.\n\nStatus: 0 ended, and with --expect ended with R; 1 the bytes are refused, by number and name;\n2 the command line or the file; 4 the output could not be written; 5 the program went wrong, or\nwith --expect did not end with R; 6 the bound was reached; 7 no memory.",
        );
    let named = with_argument(Ok(plain), file(alloc, "The bytes of a program of Linear"));
    let bounded = with_argument(named, limit(alloc, bounds, choices));
    let expected = with_argument(bounded, expect(alloc));
    with_argument(expected, explain(alloc))
}

/// How a refusal is to be told; none at a word that is not offered.
pub fn format_of(words: &ArgMatches<'_>) -> Option<Format>
    ensures some { IfSome result (λ f. first_of (codes "format") (rows_of (found_of words.now)) ≡ format_word f) }
    ensures none { IsNone result → IsNoFormat (first_of (codes "format") (rows_of (found_of words.now))) }
{
    format_named(words)
}

fn format_named(words: &ArgMatches<'_>) -> Option<Format>
    ensures some { IfSome result (λ f. first_value (found_of words.now) (codes "format") ≡ format_word f) }
    ensures none { IsNone result → IsNoFormat (first_value (found_of words.now) (codes "format")) }
{
    match words.get_str(FORMAT) {
        None => Some(Format::Plain),
        Some("gcc") => Some(Format::Gcc),
        Some("json") => Some(Format::Json),
        Some(_) => None,
    }
}

/// The bound of a run of a linked program.
pub fn limit_of(words: &ArgMatches<'_>) -> u64
    ensures { ReadsBound (first_of (codes "limit") (rows_of (found_of words.now))) result }
{
    bound_in(words, LIMIT)
}

/// With what a linked program is to end, if that is said.
pub fn expected_of(words: &ArgMatches<'_>) -> Option<i32>
    ensures { ReadsSigned (first_of (codes "expect") (rows_of (found_of words.now))) result }
{
    match words.get_str(EXPECT) {
        Some(text) => text.parse().ok(),
        None => None,
    }
}
