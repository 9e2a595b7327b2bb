//! What a row asks for.

ghost use Rattle.std.specs.Prelude.{◌<◌, IfSome};

use paxos_core_world::quorum::Quorums;
use std::alloc::Global;
use worked_row_files::{fine, some};

/// What is done with a farm.
#[derive(Clone, Copy, Debug, PartialEq, Eq)]
pub(crate) enum Trial {
    /// It links, and what it links runs.
    Run,
    /// Its optimisers are known.
    Fixed,
    /// Two turns are taken at the same time.
    Together,
    /// A node's disk fails.
    Failing,
    /// All nodes crash.
    Reopened,
    /// A node is restarted over another's disk.
    Stranger,
}

/// A farm that is asked for.
#[derive(Drop)]
pub(crate) struct Row {
    pub trial: Trial,
    pub quorums: Quorums,
    pub workers: usize,
    pub seed: u64,
    /// How many crashes are tried of each failure.
    pub crashes: u64,
    pub text: Vec<u8>,
}

/// The quorums: `N` for majorities, or `N,Q1,Q2`.
fn quorums_of(word: &str) -> Option<Quorums> {
    match word.split_once(',') {
        None => Quorums::majorities(fine!(word.parse())),
        Some((nodes, sizes)) => {
            let (promise, accept) = some!(sizes.split_once(','));
            let promise = fine!(promise.parse());
            Quorums::of(fine!(nodes.parse()), promise, fine!(accept.parse()))
        }
    }
}

/// How many threads: at least one.
fn workers_of(word: &str) -> Option<usize>
    ensures { IfSome result (λ count. 0 < count) }
{
    match word.parse() {
        Ok(count) if count > 0 => Some(count),
        _ => None,
    }
}

/// What the first word of a row asks for that does not ask for a run.
fn trial_of(word: &str) -> Option<Trial> {
    match word {
        "fixed" => Some(Trial::Fixed),
        "together" => Some(Trial::Together),
        "failing" => Some(Trial::Failing),
        "reopened" => Some(Trial::Reopened),
        "stranger" => Some(Trial::Stranger),
        _ => None,
    }
}

/// A farm of three nodes of this text, with so many crashes.
fn three_of(alloc: Global, trial: Trial, crashes: u64, text: &str) -> Option<Row>
    ensures { IfSome result (λ row. 0 < row.workers) }
{
    Some(Row {
        trial,
        quorums: some!(Quorums::majorities(3)),
        workers: 3,
        seed: 1,
        crashes,
        text: fine!(text.as_bytes().to_vec(alloc)),
    })
}

/// The farm of a question that asks for a run, if it is one.
fn run_of(alloc: Global, words: &str) -> Option<Row>
    ensures { IfSome result (λ row. 0 < row.workers) }
{
    let (sizes, rest) = some!(words.split_once(' '));
    let (workers, rest) = some!(rest.split_once(' '));
    let (seed, text) = some!(rest.split_once(' '));
    let Some(quorums) = quorums_of(sizes) else {
        return None;
    };
    let Some(workers) = workers_of(workers) else {
        return None;
    };
    Some(Row {
        trial: Trial::Run,
        quorums,
        workers,
        seed: fine!(seed.parse()),
        crashes: 0,
        text: fine!(text.as_bytes().to_vec(alloc)),
    })
}

/// The farm of a question, if it is one.
pub(crate) fn row_of(alloc: Global, words: &str) -> Option<Row>
    ensures { IfSome result (λ row. 0 < row.workers) }
{
    let Some((word, text)) = words.split_once(' ') else {
        return None;
    };
    match trial_of(word) {
        Some(Trial::Failing) => {
            let (crashes, text) = some!(text.split_once(' '));
            three_of(alloc, Trial::Failing, fine!(crashes.parse()), text)
        }
        Some(trial) => three_of(alloc, trial, 0, text),
        None => run_of(alloc, words),
    }
}
