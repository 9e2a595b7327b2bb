//! What the command line says of journals that are looked through.

ghost use Rattle.std.specs.Prelude.{◌≡◌, IfOk, IfSome, IsNone};
ghost use Rattle.clap.specs.Words.{found_of, rows_of};
ghost use Rattle.cfarm_options.specs.Sizes.{size_of};
ghost use Rattle.cfarm_command_line_tasks.specs.declared.task.FsckOptions.{FsckOptions};
ghost use Rattle.cfarm_command_line_tasks.specs.Words.{AreFsckOptions, IsCommand, fsck_app, sizes_among};

use crate::size_words::{ACCEPT, FOLDER, PROMISE, nodes_of, size_of, sized};
use cfarm_command_line_others::{file, needed, with_argument};
use cfarm_command_line_tasks::{Choices, FsckOptions};
use cfarm_options::{AskedSizes, Nodes};
use clap::{ArgMatches, Command};
use std::alloc::{AllocError, Global};

/// The command, with these choices.
pub(crate) fn fsck<'a>(alloc: Global, choices: Choices<'a>) -> Result<Command<'a>, AllocError>
    ensures { IfOk result (IsCommand (fsck_app choices.entry)) }
{
    let plain = Command::new(alloc, "fsck")
        .about("Looks through the journals of a folder, as a build of a C program would open them")
        .after_help(
            "Prints of each node how much its journal has, and of each room of the text's functions the vote\nthat was chosen there, or `open`; then `ok`. Writes nothing, and makes `cfarm.lock` where there is\nnone.\n\nStatus: 0 done; 1 the text is refused, by number, name and byte offset or function; 2 the command\nline or a file; 4 a journal is refused, as a build would refuse it, or the output could not be\nwritten; 7 no memory or no thread.",
        );
    let named = with_argument(Ok(plain), file(alloc, "A C text"));
    let counted = sized(alloc, named, choices);
    with_argument(
        counted,
        needed(alloc, FOLDER, "FOLDER", "The folder of the journals"),
    )
}

/// The size that is said, else more than half of the nodes.
fn size_among(nodes: u8, said: Option<u8>) -> u8
    ensures { result ≡ size_of nodes said }
{
    match said {
        Some(size) => size,
        None => nodes / 2 + 1,
    }
}

/// The sizes that these words say.
fn sizes_among(nodes: Nodes, promise: Option<u8>, accept: Option<u8>) -> AskedSizes
    ensures { result ≡ sizes_among nodes promise accept }
{
    let nodes = nodes.count();
    AskedSizes {
        nodes,
        promise: size_among(nodes, promise),
        accept: size_among(nodes, accept),
    }
}

/// What was found of journals that are looked through; none where there is no folder or no number of nodes that a farm can have, which
/// `clap` refuses.
pub(crate) fn fsck_options_of<'a>(words: &ArgMatches<'a>) -> Option<FsckOptions<'a>>
    ensures some { IfSome result (AreFsckOptions (rows_of (found_of words.now))) }
    ensures none { IsNone result → (o : FsckOptions) → AreFsckOptions (rows_of (found_of words.now)) o → ⊥ }
{
    let Some(nodes) = nodes_of(words) else {
        return None;
    };
    let Some(folder) = words.get_str(FOLDER) else {
        return None;
    };
    Some(FsckOptions {
        sizes: sizes_among(nodes, size_of(words, PROMISE), size_of(words, ACCEPT)),
        folder,
    })
}
