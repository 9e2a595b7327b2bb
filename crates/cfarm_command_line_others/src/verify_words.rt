//! What the command line says of a program that is verified.

ghost use Rattle.std.specs.Prelude.{◌≡◌, IfOk, IfSome, IsNone};
ghost use Rattle.clap.specs.Words.{found_of, rows_of};
ghost use Rattle.cfarm_command_line_tasks.specs.declared.task.VerifyPaths.{VerifyPaths};
ghost use Rattle.cfarm_command_line_tasks.specs.Words.{ArePaths, IsArgument, IsCommand, native_path_rule, verify_app};

use crate::joining::{file, needed, with_argument};
use cfarm_command_line_tasks::VerifyPaths;
use clap::builder::ValueParser;
use clap::{Arg, ArgMatches, Command};
use std::alloc::{AllocError, Global};

/// The option with the linked program.
const PROGRAM: &str = "program";

/// The option with the bundle.
const BUNDLE: &str = "bundle";

/// The option with the text of native code.
const NATIVE: &str = "native";

fn native<'a>(alloc: Global) -> Arg<'a>
    ensures { IsArgument native_path_rule result }
{
    Arg::new(alloc, NATIVE)
        .long(NATIVE)
        .value_name("PATH")
        .help("Also verify this text, that of its native code")
        .value_parser(ValueParser::NonEmptyString)
}

/// The command, with its help.
pub fn verify<'a>(alloc: Global) -> Result<Command<'a>, AllocError>
    ensures { IfOk result (IsCommand verify_app) }
{
    let plain = Command::new(alloc, "verify")
        .about("Says whether a bundle proves that a linked program means what a C program means")
        .after_help(
            "Checks every offer of the bundle again, and that they chain from the text to this very program; it\nrests on no journal, no node and no digest. Prints `verified F functions H`, where H is the SHA-256\nof the program.\n\nStatus: 0 done; 1 refused, by number and name; 2 the command line or a file; 4 the output could not\nbe written; 7 no memory or no thread.",
        );
    let named = with_argument(Ok(plain), file(alloc, "A C text"));
    let programmed = with_argument(named, needed(alloc, PROGRAM, "PATH", "The linked program"));
    let bundled = with_argument(
        programmed,
        needed(
            alloc,
            BUNDLE,
            "PATH",
            "The bundle: the written offers that were linked",
        ),
    );
    with_argument(bundled, native(alloc))
}

/// The files beside the text; none where one is not named, which `clap` refuses.
pub fn paths_of<'a>(words: &ArgMatches<'a>) -> Option<VerifyPaths<'a>>
    ensures some { IfSome result (ArePaths (rows_of (found_of words.now))) }
    ensures none { IsNone result → (p : VerifyPaths) → ArePaths (rows_of (found_of words.now)) p → ⊥ }
{
    let Some(program) = words.get_str(PROGRAM) else {
        return None;
    };
    let Some(bundle) = words.get_str(BUNDLE) else {
        return None;
    };
    Some(VerifyPaths {
        program,
        bundle,
        native: words.get_str(NATIVE),
    })
}
