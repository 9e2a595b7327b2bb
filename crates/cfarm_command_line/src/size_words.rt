//! What the command line says of a farm's nodes, quorums and folder.

ghost use Rattle.std.specs.Prelude.{◌≡◌, Some, codes, IfOk, IfSome, IsNone};
ghost use Rattle.clap.specs.Words.{App, found_of, first_of, first_value, rows_of};
ghost use Rattle.cfarm_options.specs.declared.options.Nodes.{Nodes};
ghost use Rattle.cfarm_command_line_tasks.specs.Words.{IsArgument, IsCommand, ReadsPerhaps, accept_rule, node_word, nodes_rule, promise_rule};
ghost use Rattle.cfarm_command_line.specs.Sized.{with_sizes};

use cfarm_command_line_others::with_argument;
use cfarm_command_line_tasks::Choices;
use cfarm_options::Nodes;
use clap::builder::ValueParser;
use clap::{Arg, ArgMatches, Command};
use std::alloc::{AllocError, Global};

/// The option that says how many nodes there are.
const NODES: &str = "nodes";

/// The option with the size of a promise quorum.
pub(crate) const PROMISE: &str = "promise";

/// The option with the size of an accept quorum.
pub(crate) const ACCEPT: &str = "accept";

/// The option with the folder.
pub(crate) const FOLDER: &str = "dir";

/// The greatest size of a quorum that is read; one that does not meet the other is told later.
const MOST_SIZE: u64 = 255;

fn nodes<'a>(alloc: Global, choices: Choices<'a>) -> Arg<'a>
    ensures { IsArgument (nodes_rule choices.entry) result }
{
    Arg::new(alloc, NODES)
        .long(NODES)
        .value_name("N")
        .help("How many nodes the farm has")
        .value_parser(ValueParser::Names(choices.nodes))
        .default_value("3")
}

fn promise<'a>(alloc: Global) -> Arg<'a>
    ensures { IsArgument promise_rule result }
{
    Arg::new(alloc, PROMISE)
        .long(PROMISE)
        .value_name("N")
        .help("How many promises a proposal rests on; more than half where none is given")
        .value_parser(ValueParser::Unsigned(0, MOST_SIZE))
}

fn accept<'a>(alloc: Global) -> Arg<'a>
    ensures { IsArgument accept_rule result }
{
    Arg::new(alloc, ACCEPT)
        .long(ACCEPT)
        .value_name("N")
        .help(
            "How many votes choose an offer; more than half where none is given.\nBoth numbers are together above that of the nodes",
        )
        .value_parser(ValueParser::Unsigned(0, MOST_SIZE))
}

/// The command with the options that say how many nodes the farm has, and of what sizes its quorums are.
pub(crate) fn sized<'a>(
    alloc: Global,
    command: Result<Command<'a>, AllocError>,
    choices: Choices<'a>,
) -> Result<Command<'a>, AllocError>
    ensures { (app : App) → IfOk command.entry (IsCommand app) → IfOk result
        (IsCommand (with_sizes app choices.entry)) }
{
    let counted = with_argument(command, nodes(alloc, choices));
    let promised = with_argument(counted, promise(alloc));
    with_argument(promised, accept(alloc))
}

/// How many nodes there are to be.
pub(crate) fn nodes_of(words: &ArgMatches<'_>) -> Option<Nodes>
    ensures some { IfSome result (λ n. first_value (found_of words.now) (codes "nodes") ≡ Some (node_word n)) }
    ensures none { IsNone result → (n : Nodes) →
        first_value (found_of words.now) (codes "nodes") ≡ Some (node_word n) → ⊥ }
{
    match words.get_str(NODES) {
        Some("2") => Some(Nodes::Two),
        Some("3") => Some(Nodes::Three),
        Some("4") => Some(Nodes::Four),
        Some("5") => Some(Nodes::Five),
        Some("6") => Some(Nodes::Six),
        Some("7") => Some(Nodes::Seven),
        _ => None,
    }
}

/// The size of a quorum, if this option says one.
pub(crate) fn size_of(words: &ArgMatches<'_>, name: &str) -> Option<u8>
    ensures { ReadsPerhaps 8 (first_of name.now (rows_of (found_of words.now))) result }
{
    match words.get_str(name) {
        Some(text) => match text.parse() {
            Ok(size) => Some(size),
            Err(_) => None,
        },
        None => None,
    }
}
