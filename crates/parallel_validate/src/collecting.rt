//! One list of answers, from what the threads found.

ghost use Rattle.std.specs.Prelude.{◌≡◌, ℕ, ◌<◌, ◌≤◌, length, slice_get, slice_index_or, None, Some, IfOk};
ghost use Rattle.std.specs.List.{AllByRecursion};
ghost use Rattle.parallel_validate.specs.Verdicts.{AreAnswers, IsKnown, IsRight};

use crate::gate::Gate;
use crate::verdict::{Job, Verdict};
use crate::working::answer;
use lang_base::{NoMemory, Pass};
use std::alloc::Global;

/// Enters each verdict at the number of its job.
pub(crate) fn enter<P: Pass>(known: &mut [Option<bool>], jobs: &[Job<P>], verdicts: &[Verdict])
    requires known { (i : ℕ) → IsKnown P.accepts jobs.now i (slice_index_or known.old i None) }
    requires right { AllByRecursion (IsRight P.accepts jobs.now) verdicts.now }
    ensures known { (i : ℕ) → IsKnown P.accepts jobs.now i (slice_index_or known.new i None) }
    ensures count { length known.new ≡ length known.old }
{
    for verdict in verdicts {
        if verdict.job < known.len() {
            known[verdict.job] = Some(verdict.yes);
        }
    }
}

/// The answer that is known, or the job done here.
fn known_or_done<P: Pass, G: Gate>(
    alloc: Global,
    jobs: &[Job<P>],
    number: usize,
    known: Option<bool>,
    gate: &G,
) -> Result<bool, NoMemory>
    requires number { number < length jobs.now }
    requires known { IsKnown P.accepts jobs.now number known }
    ensures { IfOk result (λ yes. IsKnown P.accepts jobs.now number (Some yes)) }
{
    match known {
        Some(yes) => Ok(yes),
        None => answer::<P, G>(alloc, jobs, number, gate),
    }
}

/// All answers: those that are known, and the others done here.
pub(crate) fn finish<P: Pass, G: Gate>(
    alloc: Global,
    jobs: &[Job<P>],
    known: &[Option<bool>],
    gate: &G,
) -> Result<Vec<bool>, NoMemory>
    requires known { (i : ℕ) → IsKnown P.accepts jobs.now i (slice_index_or known.now i None) }
    requires count { length known.now ≡ length jobs.now }
    ensures { IfOk result (λ answers. AreAnswers P.accepts jobs.now answers.items) }
{
    let mut answers = Vec::with_capacity(alloc, jobs.len())?;
    for number in 0..jobs.len() {
        let yes = known_or_done::<P, G>(alloc, jobs, number, known[number], gate)?;
        answers.push(yes)?;
    }
    Ok(answers)
}
