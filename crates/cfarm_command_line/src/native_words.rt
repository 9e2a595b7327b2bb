//! What the command line says of native code.

ghost use Rattle.std.specs.Prelude.{◌≡◌, IfOk, option_copied};
ghost use Rattle.clap.specs.Words.{found_of, rows_of};
ghost use Rattle.cfarm_command_line_tasks.specs.Words.{AreNativeOptions, IsArgument, IsCommand, export_rule, header_rule, native_app, output_rule, written_by};

use cfarm_command_line_others::{file, with_argument};
use cfarm_command_line_tasks::{NativeOptions, Written};
use clap::builder::ValueParser;
use clap::{Arg, ArgAction, ArgMatches, Command};
use std::alloc::{AllocError, Global};

/// The option with the file of the text.
const OUTPUT: &str = "output";

/// The option with the prefix of exported functions.
const EXPORT: &str = "export";

/// The option that asks for a header.
const HEADER: &str = "header";

fn output<'a>(alloc: Global) -> Arg<'a>
    ensures { IsArgument output_rule result }
{
    Arg::new(alloc, OUTPUT)
        .short('o')
        .value_name("PATH")
        .help("Put the text there; with `-` or none it is printed")
        .value_parser(ValueParser::NonEmptyString)
}

fn export<'a>(alloc: Global) -> Arg<'a>
    ensures { IsArgument export_rule result }
{
    Arg::new(alloc, EXPORT)
        .long(EXPORT)
        .value_name("PREFIX")
        .help("For a library: C calls each function by its name behind PREFIX")
        .value_parser(ValueParser::NonEmptyString)
}

fn header<'a>(alloc: Global) -> Arg<'a>
    ensures { IsArgument header_rule result }
{
    Arg::new(alloc, HEADER)
        .long(HEADER)
        .help("With --export: write the header of C that declares these functions")
        .action(ArgAction::SetTrue)
}

/// The command, with its help.
pub(crate) fn native<'a>(alloc: Global) -> Result<Command<'a>, AllocError>
    ensures { IfOk result (IsCommand native_app) }
{
    let plain = Command::new(alloc, "native")
        .about("Writes a linked program as assembly of x86-64 Linux, which gcc makes a program of")
        .after_help(
            "The text depends on the program and on PREFIX alone. What it makes prints what the program prints,\nand ends with its result modulo 256; or it tells `wrong`, `memory`, where the stack is full, or\n`write 701`, and ends with 5, 7 or 4.\n\nStatus: 0 done; 1 the bytes are refused, by number and name; 2 the command line, `prefix PREFIX`,\n`header without --export` or a file; 4 the output could not be written; 7 no memory.",
        );
    let named = with_argument(Ok(plain), file(alloc, "The bytes of a program of Linear"));
    let placed = with_argument(named, output(alloc));
    let exported = with_argument(placed, export(alloc));
    with_argument(exported, header(alloc))
}

fn written_by(word: Option<&str>) -> Written
    ensures { result ≡ written_by (option_copied word.entry) }
{
    match word {
        Some(word) => {
            if word == "true" {
                Written::Header
            } else {
                Written::Assembly
            }
        }
        None => Written::Assembly,
    }
}

/// How the text is to be written.
pub(crate) fn native_options_of<'a>(words: &ArgMatches<'a>) -> NativeOptions<'a>
    ensures { AreNativeOptions (rows_of (found_of words.now)) result }
{
    NativeOptions {
        written: written_by(words.get_str(HEADER)),
        output: words.get_str(OUTPUT),
        prefix: words.get_str(EXPORT),
    }
}
