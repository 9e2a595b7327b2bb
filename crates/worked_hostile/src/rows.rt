//! What a row asks for.

use paxos_core_world::quorum::Quorums;
use std::alloc::Global;
use worked_row_files::{fine, some};

/// What a farm suffers.
#[derive(Clone, Copy, Debug, PartialEq, Eq)]
pub(crate) enum Trial {
    /// Its journals are forged.
    Forged,
    /// Two of its journals are exchanged.
    Exchanged,
    /// Its text is edited.
    Edited,
    /// It opens over the journals of three nodes.
    Joined,
    /// Two functions have exchanged their rooms.
    Crossed,
    /// A disk fails while it opens.
    Unread,
    /// Its journals are of an older form.
    Migrated,
    /// All disks stop, and crash.
    Stopped,
    /// Its journals are cut and changed.
    Swept,
}

/// What is asked for: what a farm of this text with these quorums suffers, and how.
#[derive(Drop)]
pub(crate) struct Row {
    pub trial: Trial,
    pub quorums: Quorums,
    pub how: String,
    pub text: Vec<u8>,
}

fn trial_of(word: &str) -> Option<Trial> {
    match word {
        "forged" => Some(Trial::Forged),
        "exchanged" => Some(Trial::Exchanged),
        "edited" => Some(Trial::Edited),
        "joined" => Some(Trial::Joined),
        "crossed" => Some(Trial::Crossed),
        "unread" => Some(Trial::Unread),
        "migrated" => Some(Trial::Migrated),
        "stopped" => Some(Trial::Stopped),
        "swept" => Some(Trial::Swept),
        _ => None,
    }
}

/// The quorums: `N` for more than half of the nodes, or `N,Q1,Q2`.
fn quorums_of(word: &str) -> Option<Quorums> {
    match word.split_once(',') {
        None => Quorums::majorities(fine!(word.parse())),
        Some((nodes, sizes)) => {
            let (promise, accept) = some!(sizes.split_once(','));
            let promise = fine!(promise.parse());
            Quorums::of(fine!(nodes.parse()), promise, fine!(accept.parse()))
        }
    }
}

/// What a question asks for, if it is one.
pub(crate) fn row_of(alloc: Global, question: &str) -> Option<Row> {
    let (word, rest) = some!(question.split_once(' '));
    let (sizes, rest) = some!(rest.split_once(' '));
    let (how, text) = some!(rest.split_once(' '));
    let Some(trial) = trial_of(word) else {
        return None;
    };
    Some(Row {
        trial,
        quorums: some!(quorums_of(sizes)),
        how: fine!(how.to_string(alloc)),
        text: fine!(text.as_bytes().to_vec(alloc)),
    })
}
