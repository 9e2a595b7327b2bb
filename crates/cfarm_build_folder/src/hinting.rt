//! What a user is shown behind the line of a build that is not done: nothing where standard error is no terminal.

ghost use Rattle.std.specs.Prelude.{◌≡◌, [], false, string_bytes};

use crate::error::BuildingError;
use acceptor_log_form::LogError;
use cfarm_build_faults::{BuildError, OpenFault, SourceFault};
use cfarm_files::{Files, Reason};
use cfarm_hints::{TextError, difference_of, explained};
use cfarm_options::BuildOptions;
use std::alloc::{AllocError, Global};

/// What is shown where a farm has not agreed.
const TURNS: &str =
    "not every room was agreed on: `--turns N` sets how many turns each node takes, and the same build goes on from its journals\n";

/// What is shown where the folder's lock is not had.
const LOCKED: &str =
    "another build is running in that folder, or it is missing or cannot be written\n";

/// What is shown where a journal is of another build, and in what is not known.
const OTHER: &str = "that journal is of another build";

/// The hint at a journal of another build.
fn of_journal<F: Files>(
    alloc: Global,
    options: BuildOptions<'_>,
    text: &[u8],
    node: u8,
    files: &F,
) -> Result<String, AllocError> {
    let told = difference_of(alloc, options, text, node, files);
    let told = if told.is_empty() { OTHER } else { told };
    format!(in alloc;
        "{told}:\ngive the folder of this build or an empty one (--dir); a `linked.cfp` that is there is of the old build\n"
    )
}

/// Whether that is the lock, which another one may have.
fn is_held(path: &str, reason: Reason) -> bool {
    path.ends_with("cfarm.lock") && (reason == Reason::Held || reason == Reason::Unsaid)
}

/// The hint at a build that is not done.
fn said_of_build<F: Files>(
    alloc: Global,
    options: BuildOptions<'_>,
    text: &[u8],
    files: &F,
    fault: &BuildingError,
) -> Result<String, AllocError> {
    match fault {
        BuildingError::Build(BuildError::Disks(OpenFault::Journal(node, LogError::OtherSource))) =>
            { of_journal(alloc, options, text, *node, files) }
        BuildingError::Build(BuildError::Undecided) => TURNS.to_string(alloc),
        BuildingError::File(path, reason) if is_held(path.as_str(), *reason) => LOCKED.to_string(
            alloc,
        ),
        _ => Ok(String::new(alloc)),
    }
}

/// The text of a fault of the text, where it is one.
fn text_fault(fault: &BuildingError) -> Option<TextError> {
    match fault {
        BuildingError::Build(BuildError::Source(SourceFault::Text(fault))) => Some(*fault),
        _ => None,
    }
}

/// The explanation of a build that is not done; nothing where there is no memory for it.
fn explained_build<F: Files>(
    alloc: Global,
    options: BuildOptions<'_>,
    path: &str,
    text: &[u8],
    files: &F,
    fault: &BuildingError,
) -> String {
    if let Some(fault) = text_fault(fault) {
        return explained(alloc, path, text, fault);
    }
    match said_of_build(alloc, options, text, files, fault) {
        Ok(hint) => hint,
        Err(_) => String::new(alloc),
    }
}

/// What is shown behind the line of a build of the text of the file of this path.
pub fn of_build<F: Files>(
    alloc: Global,
    is_seen: bool,
    options: BuildOptions<'_>,
    path: &str,
    text: &[u8],
    files: &F,
    fault: &BuildingError,
) -> String
    ensures { is_seen ≡ false → string_bytes result ≡ [] }
{
    if is_seen {
        explained_build(alloc, options, path, text, files, fault)
    } else {
        String::new(alloc)
    }
}
