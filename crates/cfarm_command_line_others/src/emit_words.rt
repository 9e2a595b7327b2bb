//! What the command line says of a form that is written.

ghost use Rattle.std.specs.Prelude.{◌≡◌, Some, codes, IfOk, IfSome, IsNone};
ghost use Rattle.clap.specs.Words.{first_of, first_value, found_of, rows_of};
ghost use Rattle.cfarm_command_line_tasks.specs.Words.{IsArgument, IsCommand, IsNoWord, ReadsPerhaps, drawn_rule, emit_app, form_rule, form_word};

use crate::joining::{file, with_argument};
use cfarm_command_line_tasks::Choices;
use cfarm_options::Emitted;
use clap::builder::ValueParser;
use clap::{Arg, ArgMatches, Command};
use std::alloc::{AllocError, Global};

/// The option that says which form is written.
const OF: &str = "of";

/// The option with the seed of the optimisers.
const SEED: &str = "seed";

/// The greatest seed.
const GREATEST_SEED: u64 = 9_223_372_036_854_775_807;

fn form<'a>(alloc: Global, choices: Choices<'a>) -> Arg<'a>
    ensures { IsArgument (form_rule choices.entry) result }
{
    Arg::new(alloc, OF)
        .long(OF)
        .value_name("FORM")
        .help("Which form is written")
        .value_parser(ValueParser::Names(choices.forms))
        .required(true)
}

fn drawn<'a>(alloc: Global) -> Arg<'a>
    ensures { IsArgument drawn_rule result }
{
    Arg::new(alloc, SEED)
        .long(SEED)
        .value_name("N")
        .help("The seed of the optimisers, from 0 to 9223372036854775807; else the baselines")
        .value_parser(ValueParser::Unsigned(0, GREATEST_SEED))
}

/// The command, with its help.
pub fn emit<'a>(alloc: Global, choices: Choices<'a>) -> Result<Command<'a>, AllocError>
    ensures { IfOk result (IsCommand (emit_app choices.entry)) }
{
    let plain = Command::new(alloc, "emit")
        .about("Writes a C program in a form on the way to the linked program")
        .after_help(
            "Writes the bytes of the whole program, as one node's chain of passes makes it without a farm.\n\nStatus: 0 done; 1 the text is refused, by number, name and byte offset or function; 2 the command\nline or the file; 4 the output could not be written; 7 no memory.",
        );
    let named = with_argument(Ok(plain), file(alloc, "A C text"));
    let formed = with_argument(named, form(alloc, choices));
    with_argument(formed, drawn(alloc))
}

/// Which form is to be written; none at a word that is not offered.
pub fn emitted_of(words: &ArgMatches<'_>) -> Option<Emitted>
    ensures some { IfSome result (λ e. first_of (codes "of") (rows_of (found_of words.now)) ≡ Some (form_word e)) }
    ensures none { IsNone result → IsNoWord form_word (first_of (codes "of") (rows_of (found_of words.now))) }
{
    emitted_found(words)
}

fn emitted_found(words: &ArgMatches<'_>) -> Option<Emitted>
    ensures some { IfSome result (λ e. first_value (found_of words.now) (codes "of") ≡ Some (form_word e)) }
    ensures none { IsNone result → IsNoWord form_word (first_value (found_of words.now) (codes "of")) }
{
    match words.get_str(OF) {
        Some("cminor") => Some(Emitted::Cminor),
        Some("rtl") => Some(Emitted::Rtl),
        Some("ltl") => Some(Emitted::Ltl),
        Some("linear") => Some(Emitted::Linear),
        Some("bundle") => Some(Emitted::Bundle),
        _ => None,
    }
}

/// The seed of the optimisers, if that is said.
pub fn emit_seed_of(words: &ArgMatches<'_>) -> Option<u64>
    ensures { ReadsPerhaps 64 (first_of (codes "seed") (rows_of (found_of words.now))) result }
{
    match words.get_str(SEED) {
        Some(text) => match text.parse() {
            Ok(seed) => Some(seed),
            Err(_) => None,
        },
        None => None,
    }
}
