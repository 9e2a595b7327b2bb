//! What the command line says of a build.

ghost use Rattle.std.specs.Prelude.{◌≡◌, Some, codes, IfOk, IfSome, IsNone};
ghost use Rattle.clap.specs.Words.{found_of, first_of, first_value, rows_of};
ghost use Rattle.cfarm_options.specs.declared.options.BuildOptions.{BuildOptions};
ghost use Rattle.cfarm_command_line_tasks.specs.Words.{AreOptions, IsArgument, IsCommand, IsNoWord, IsPath, Reads, build_app};
ghost use Rattle.cfarm_command_line_tasks.specs.Words.{optimise_rule, optimise_word, path_rule, seed_rule, turns_rule};

use crate::size_words::{ACCEPT, FOLDER, PROMISE, nodes_of, size_of, sized};
use cfarm_command_line_others::{file, needed, with_argument};
use cfarm_command_line_tasks::Choices;
use cfarm_options::{BuildOptions, Optimise};
use clap::builder::ValueParser;
use clap::{Arg, ArgMatches, Command};
use std::alloc::{AllocError, Global};

/// The option that bounds the turns of each node.
const TURNS: &str = "turns";

/// The option with the seed of the nodes' generators.
const SEED: &str = "seed";

/// The option that says how the optimisers choose.
const OPTIMISE: &str = "optimise";

/// The option with the file of the bundle.
const BUNDLE: &str = "bundle";

/// The option with the folder of offers that were made outside.
const OFFERS: &str = "offers";

/// The greatest bound of the turns of a node.
const MOST_TURNS: u64 = 4_294_967_295;

/// The greatest seed.
const GREATEST_SEED: u64 = 9_223_372_036_854_775_807;

fn turns<'a>(alloc: Global) -> Arg<'a>
    ensures { IsArgument turns_rule result }
{
    Arg::new(alloc, TURNS)
        .long(TURNS)
        .value_name("N")
        .help("How many turns a node takes at most, from 0 to 4294967295")
        .value_parser(ValueParser::Unsigned(0, MOST_TURNS))
        .default_value("10000")
}

fn seed<'a>(alloc: Global) -> Arg<'a>
    ensures { IsArgument seed_rule result }
{
    Arg::new(alloc, SEED)
        .long(SEED)
        .value_name("N")
        .help("The seed of what the nodes draw, from 0 to 9223372036854775807")
        .value_parser(ValueParser::Unsigned(0, GREATEST_SEED))
        .default_value("1")
}

fn optimise<'a>(alloc: Global, choices: Choices<'a>) -> Arg<'a>
    ensures { IsArgument (optimise_rule choices.entry) result }
{
    Arg::new(alloc, OPTIMISE)
        .long(OPTIMISE)
        .value_name("HOW")
        .help("How the optimisers choose")
        .value_parser(ValueParser::Names(choices.optimise))
        .default_value("drawn")
}

/// An option with a path, which is not empty.
fn path<'a>(alloc: Global, name: &'a str, value: &'a str, help: &'a str) -> Arg<'a>
    ensures { IsArgument (path_rule name.entry.now) result }
{
    Arg::new(alloc, name)
        .long(name)
        .value_name(value)
        .help(help)
        .value_parser(ValueParser::NonEmptyString)
}

/// The command, with these choices.
pub(crate) fn build<'a>(alloc: Global, choices: Choices<'a>) -> Result<Command<'a>, AllocError>
    ensures { IfOk result (IsCommand (build_app choices.entry)) }
{
    let plain = Command::new(alloc, "build")
        .about("Compiles and links a C program by a farm of nodes")
        .after_help(
            "Writes `linked.cfp` in the folder, and prints the report, one line of JSON: of each function the\nnodes whose offers were learned in its four rooms, the SHA-256 of `linked.cfp`, and how many nodes\nthere are. Nodes go on from the journals `node0.cf2` and so on that they find in the folder; those\nof the first version, `node0.cfj` and so on, are migrated to these.\n\nStatus: 0 done; 1 the text is refused, by number, name and byte offset or function; 2 the command\nline or a file; 3 undecided; 4 a journal is refused or failed, or the output could not be written;\n7 no memory or no thread.",
        );
    let named = with_argument(Ok(plain), file(alloc, "A C text"));
    let counted = sized(alloc, named, choices);
    let bounded = with_argument(counted, turns(alloc));
    let seeded = with_argument(bounded, seed(alloc));
    let optimised = with_argument(seeded, optimise(alloc, choices));
    let placed = with_argument(
        optimised,
        needed(
            alloc,
            FOLDER,
            "FOLDER",
            "The folder of the journals and the linked program; it has to be there",
        ),
    );
    let bundled = with_argument(
        placed,
        path(
            alloc,
            BUNDLE,
            "PATH",
            "Also write the bundle of its offers there, for `verify`",
        ),
    );
    with_argument(
        bundled,
        path(
            alloc,
            OFFERS,
            "DIR",
            "First offer what stands there: DIR/nodeI/NAME.passK",
        ),
    )
}

/// How the nodes' optimisers are to choose.
fn optimise_of(words: &ArgMatches<'_>) -> Option<Optimise>
    ensures some { IfSome result (λ o. first_value (found_of words.now) (codes "optimise") ≡ Some (optimise_word o)) }
    ensures none { IsNone result → IsNoWord optimise_word (first_value (found_of words.now) (codes "optimise")) }
{
    match words.get_str(OPTIMISE) {
        Some("drawn") => Some(Optimise::Drawn),
        Some("speed") => Some(Optimise::Speed),
        _ => None,
    }
}

fn turns_of(words: &ArgMatches<'_>) -> u32
    ensures { Reads 32 (first_of (codes "turns") (rows_of (found_of words.now))) result }
{
    match words.get_str(TURNS) {
        Some(text) => text.parse().unwrap_or(0),
        None => 0,
    }
}

fn seed_of(words: &ArgMatches<'_>) -> u64
    ensures { Reads 64 (first_of (codes "seed") (rows_of (found_of words.now))) result }
{
    match words.get_str(SEED) {
        Some(text) => text.parse().unwrap_or(0),
        None => 0,
    }
}

/// The path that this option says, if it says one.
fn path_of<'a>(words: &ArgMatches<'a>, name: &str) -> Option<&'a str>
    ensures { IsPath (rows_of (found_of words.now)) name.now result }
{
    words.get_str(name)
}

/// What was found of a build; none where there is no folder, no number of nodes that a farm can have or no known way to optimise, which
/// `clap` refuses.
pub(crate) fn options_of<'a>(words: &ArgMatches<'a>) -> Option<BuildOptions<'a>>
    ensures some { IfSome result (AreOptions (rows_of (found_of words.now))) }
    ensures none { IsNone result → (o : BuildOptions) → AreOptions (rows_of (found_of words.now)) o → ⊥ }
{
    let Some(nodes) = nodes_of(words) else {
        return None;
    };
    let Some(optimise) = optimise_of(words) else {
        return None;
    };
    let Some(folder) = words.get_str(FOLDER) else {
        return None;
    };
    Some(BuildOptions {
        nodes,
        promise: size_of(words, PROMISE),
        accept: size_of(words, ACCEPT),
        turns: turns_of(words),
        seed: seed_of(words),
        optimise,
        folder,
        bundle: path_of(words, BUNDLE),
        offers: path_of(words, OFFERS),
    })
}
